// A single row added to a reducer whose record of counts is lent and changed in place.
//
// For a caller that keeps the record in a struct of its own. Everyone else calls `adding`: the record by
// value, the new one answered.
#![tactic(auto)]

ghost use Rattle.std.specs.Prelude.{◌≡◌, true, false};
ghost use Rattle.sparse.specs.Lent.{outcome};
ghost use Rattle.state.specs.Memory.{memory};
ghost use Rattle.stepping.specs.Take.{lists};
ghost use Rattle.entering.specs.Enter.{entered, entered_of, enter_row};

use sparse::Refusal;
use state::Counts;
use stepping::Stepped;

// Takes a row, stopping at the first nonzero entry with no pivot, keeps the counts and answers the column
// where the row was accepted, or None; or the lowest of 1, 2, 3, 5, 6, 7, 11, 13 and 14 that applies, and
// everything lent, the counts with it, as it came.
pub fn add_row(
    counts: &mut Counts,
    cols: &[u32],
    vals: &[u32],
    dense: &mut [u32],
    u_cols: &mut [u32],
    u_vals: &mut [u32],
    u_ptrs: &mut [usize],
    l_cols: &mut [u32],
    l_vals: &mut [u32],
    l_ptrs: &mut [usize],
    pivots: &mut [u32],
) -> Result<Option<u32>, Refusal>
    ensures { outcome (entered counts.new result) (lists (memory u_cols.new u_vals.new u_ptrs.new l_cols.new l_vals.new l_ptrs.new pivots.new) dense.new) ≡ enter_row false counts.old cols.now vals.now (lists (memory u_cols.old u_vals.old u_ptrs.old l_cols.old l_vals.old l_ptrs.old pivots.old) dense.old) }
{
    let added = adding::add_row(
        *counts, cols, vals, dense, u_cols, u_vals, u_ptrs, l_cols, l_vals, l_ptrs, pivots,
    );
    keep(counts, added)
}

// The same by the second walk, which goes on: the new row of U is 0 over every pivot.
pub fn add_row_with_back_subs(
    counts: &mut Counts,
    cols: &[u32],
    vals: &[u32],
    dense: &mut [u32],
    u_cols: &mut [u32],
    u_vals: &mut [u32],
    u_ptrs: &mut [usize],
    l_cols: &mut [u32],
    l_vals: &mut [u32],
    l_ptrs: &mut [usize],
    pivots: &mut [u32],
) -> Result<Option<u32>, Refusal>
    ensures { outcome (entered counts.new result) (lists (memory u_cols.new u_vals.new u_ptrs.new l_cols.new l_vals.new l_ptrs.new pivots.new) dense.new) ≡ enter_row true counts.old cols.now vals.now (lists (memory u_cols.old u_vals.old u_ptrs.old l_cols.old l_vals.old l_ptrs.old pivots.old) dense.old) }
{
    let added = adding::add_row_with_back_subs(
        *counts, cols, vals, dense, u_cols, u_vals, u_ptrs, l_cols, l_vals, l_ptrs, pivots,
    );
    keep(counts, added)
}

// Keeps the counts of a step, and answers what the row came to.
fn keep(counts: &mut Counts, added: Result<Stepped, Refusal>) -> Result<Option<u32>, Refusal>
    ensures { entered counts.new result ≡ entered_of counts.old added }
{
    let stepped = added?;
    *counts = stepped.counts;
    Ok(stepped.answer)
}

// The calls that add one row.
ghost use Rattle.std.specs.Prelude.{◌≡◌, true, false};
ghost use Rattle.sparse.specs.Lent.{outcome};
ghost use Rattle.sparse.specs.Rows.{entries};
ghost use Rattle.state.specs.Memory.{memory};
ghost use Rattle.stepping.specs.Take.{lists, step_row};
ghost use Rattle.adding.specs.AddRow.{add_row};
ghost use Rattle.adding.specs.Asks.{Takeable};

use crate::inside::add_row_test;
use sparse::Refusal;
use state::Counts;
use stepping::Stepped;
use stepping::rows::{room_asked, step_row};
use walk::kernels::wipe;

// Takes a row, stopping at the first nonzero entry with no pivot; or the lowest of 1, 2, 3, 5, 6, 7, 11,
// 13 and 14 that applies, and everything lent as it came.
pub fn add_row(
    counts: Counts,
    cols: &[u32],
    vals: &[u32],
    dense: &mut [u32],
    u_cols: &mut [u32],
    u_vals: &mut [u32],
    u_ptrs: &mut [usize],
    l_cols: &mut [u32],
    l_vals: &mut [u32],
    l_ptrs: &mut [usize],
    pivots: &mut [u32],
) -> Result<Stepped, Refusal>
    ensures { outcome result (lists (memory u_cols.new u_vals.new u_ptrs.new l_cols.new l_vals.new l_ptrs.new pivots.new) dense.new) ≡ add_row false counts cols.now vals.now (lists (memory u_cols.old u_vals.old u_ptrs.old l_cols.old l_vals.old l_ptrs.old pivots.old) dense.old) }
{
    add(
        false, counts, cols, vals, dense, u_cols, u_vals, u_ptrs, l_cols, l_vals, l_ptrs, pivots,
    )
}

// The same by the second walk, which goes on: the new row of U is 0 over every pivot.
pub fn add_row_with_back_subs(
    counts: Counts,
    cols: &[u32],
    vals: &[u32],
    dense: &mut [u32],
    u_cols: &mut [u32],
    u_vals: &mut [u32],
    u_ptrs: &mut [usize],
    l_cols: &mut [u32],
    l_vals: &mut [u32],
    l_ptrs: &mut [usize],
    pivots: &mut [u32],
) -> Result<Stepped, Refusal>
    ensures { outcome result (lists (memory u_cols.new u_vals.new u_ptrs.new l_cols.new l_vals.new l_ptrs.new pivots.new) dense.new) ≡ add_row true counts cols.now vals.now (lists (memory u_cols.old u_vals.old u_ptrs.old l_cols.old l_vals.old l_ptrs.old pivots.old) dense.old) }
{
    add(
        true, counts, cols, vals, dense, u_cols, u_vals, u_ptrs, l_cols, l_vals, l_ptrs, pivots,
    )
}

fn add(
    on: bool,
    counts: Counts,
    cols: &[u32],
    vals: &[u32],
    dense: &mut [u32],
    u_cols: &mut [u32],
    u_vals: &mut [u32],
    u_ptrs: &mut [usize],
    l_cols: &mut [u32],
    l_vals: &mut [u32],
    l_ptrs: &mut [usize],
    pivots: &mut [u32],
) -> Result<Stepped, Refusal>
    ensures { outcome result (lists (memory u_cols.new u_vals.new u_ptrs.new l_cols.new l_vals.new l_ptrs.new pivots.new) dense.new) ≡ add_row on counts cols.now vals.now (lists (memory u_cols.old u_vals.old u_ptrs.old l_cols.old l_vals.old l_ptrs.old pivots.old) dense.old) }
{
    add_row_test(
        counts, cols, vals, dense, u_cols, u_vals, u_ptrs, l_cols, l_vals, l_ptrs, pivots,
    )?;
    room_asked(
        counts, cols, vals, u_cols, u_vals, u_ptrs, l_cols, l_vals, l_ptrs, pivots,
    )?;
    Ok(take(
        on, counts, cols, vals, dense, u_cols, u_vals, u_ptrs, l_cols, l_vals, l_ptrs, pivots,
    ))
}

// Takes a row that passes the tests. Dense memory may hold anything, so it is cleared first: only now,
// for a refusal leaves it.
fn take(
    on: bool,
    counts: Counts,
    cols: &[u32],
    vals: &[u32],
    dense: &mut [u32],
    u_cols: &mut [u32],
    u_vals: &mut [u32],
    u_ptrs: &mut [usize],
    l_cols: &mut [u32],
    l_vals: &mut [u32],
    l_ptrs: &mut [usize],
    pivots: &mut [u32],
) -> Stepped
    requires { Takeable counts cols.now vals.now (lists (memory u_cols.old u_vals.old u_ptrs.old l_cols.old l_vals.old l_ptrs.old pivots.old) dense.old) }
    ensures { outcome result (lists (memory u_cols.new u_vals.new u_ptrs.new l_cols.new l_vals.new l_ptrs.new pivots.new) dense.new) ≡ step_row on counts (entries cols.now vals.now) (lists (memory u_cols.old u_vals.old u_ptrs.old l_cols.old l_vals.old l_ptrs.old pivots.old) dense.old) }
{
    let n = counts.ncols as usize;
    let front = &mut dense[..n];
    wipe(0, front);
    step_row(
        on, counts, cols, vals, front, u_cols, u_vals, u_ptrs, l_cols, l_vals, l_ptrs, pivots,
    )
}

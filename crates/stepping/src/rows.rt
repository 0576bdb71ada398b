// Steps 1 to 4 of a row.
ghost use Rattle.std.specs.Prelude.{◌≡◌, ◌||◌, ◌≤◌, eqb, length};
ghost use Rattle.sparse.specs.Lent.{outcome};
ghost use Rattle.sparse.specs.Rows.{entries};
ghost use Rattle.state.specs.Memory.{memory};
ghost use Rattle.walk.specs.Left.{answer_of};
ghost use Rattle.stepping.specs.After.{one_if, after_walk};
ghost use Rattle.stepping.specs.Asks.{Ready, Countable};
ghost use Rattle.stepping.specs.Take.{lists, room_asked, step_row};

use crate::Stepped;
use sparse::Refusal;
use state::Counts;
use state::inside::room_test;
use state::start::keeps_l;
use taking::Walked;
use taking::rows::walk_row;

// Step 2: room, asked only where step 1 doesn't apply.
pub fn room_asked(
    counts: Counts,
    cols: &[u32],
    vals: &[u32],
    u_cols: &[u32],
    u_vals: &[u32],
    u_ptrs: &[usize],
    l_cols: &[u32],
    l_vals: &[u32],
    l_ptrs: &[usize],
    pivots: &[u32],
) -> Result<(), Refusal>
    requires { length cols.now ≡ length vals.now }
    ensures { result ≡ room_asked counts (entries cols.now vals.now) (memory u_cols.now u_vals.now u_ptrs.now l_cols.now l_vals.now l_ptrs.now pivots.now) }
{
    if is_at_once(counts.ncols, counts.rank, cols.len()) {
        return Ok(());
    }
    room_test(
        counts, u_cols, u_vals, u_ptrs, l_cols, l_vals, l_ptrs, pivots,
    )
}

// Step 1: an empty row, or rank equal to the column count.
pub fn is_at_once(ncols: u32, rank: usize, len: usize) -> bool
    ensures { result ≡ eqb len 0 || eqb rank ncols }
{
    if len == 0 {
        return true;
    }
    rank == ncols as usize
}

// Takes a row for which there is room: answers None at once, or walks it.
pub fn step_row(
    on: bool,
    counts: Counts,
    cols: &[u32],
    vals: &[u32],
    dense: &mut [u32],
    u_cols: &mut [u32],
    u_vals: &mut [u32],
    u_ptrs: &mut [usize],
    l_cols: &mut [u32],
    l_vals: &mut [u32],
    l_ptrs: &mut [usize],
    pivots: &mut [u32],
) -> Stepped
    requires { Ready counts cols.now vals.now (lists (memory u_cols.old u_vals.old u_ptrs.old l_cols.old l_vals.old l_ptrs.old pivots.old) dense.old) }
    ensures { outcome result (lists (memory u_cols.new u_vals.new u_ptrs.new l_cols.new l_vals.new l_ptrs.new pivots.new) dense.new) ≡ step_row on counts (entries cols.now vals.now) (lists (memory u_cols.old u_vals.old u_ptrs.old l_cols.old l_vals.old l_ptrs.old pivots.old) dense.old) }
{
    if is_at_once(counts.ncols, counts.rank, cols.len()) {
        return Stepped {
            answer: None,
            counts,
        };
    }
    let mode = counts.mode;
    let walked = walk_row(
        on,
        counts.modulus,
        mode,
        counts.rank,
        counts.u_fill,
        counts.l_rows,
        counts.l_fill,
        cols,
        vals,
        dense,
        u_cols,
        u_vals,
        u_ptrs,
        l_cols,
        l_vals,
        l_ptrs,
        pivots,
    );
    after(counts, walked)
}

// The answer and the counts after a walk.
fn after(counts: Counts, walked: Walked) -> Stepped
    requires { Countable counts walked }
    ensures { result ≡ after_walk counts walked }
{
    let mode = counts.mode;
    let u_rows = one_if(walked.head < counts.ncols as usize);
    let l_rows = one_if(keeps_l(mode));
    Stepped {
        answer: answer_of(counts.ncols, walked.head),
        counts: Counts {
            mode,
            modulus: counts.modulus,
            ncols: counts.ncols,
            rank: counts.rank + u_rows,
            u_fill: counts.u_fill + walked.u_len,
            l_rows: counts.l_rows + l_rows,
            l_fill: counts.l_fill + walked.l_len,
        },
    }
}

pub fn one_if(counted: bool) -> usize
    ensures { result ≡ one_if counted }
{
    usize::from(counted)
}

// The answer, by the head's column.
fn answer_of(ncols: u32, head: usize) -> Option<u32>
    requires { head ≤ 1024 }
    ensures { result ≡ answer_of ncols head }
{
    if head < ncols as usize {
        return Some(head as u32);
    }
    None
}

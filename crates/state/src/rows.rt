// Whether U is clean rows with heads of 1, and the pivot table that of its heads.
ghost use Rattle.std.specs.Prelude.{◌≡◌, ◌||◌};
ghost use Rattle.lists.specs.Find.{any};
ghost use Rattle.sparse.specs.Matrix.{matrix};
ghost use Rattle.state.specs.Asks.{Seated, SeatedRow, Headed, HeadedColumn, Sized, Opened};
ghost use Rattle.state.specs.State.{headless, misplaced, u_fault, u_lost, u_rows};

use crate::inside::places;
use pivots::inside::MARK;
use sparse::inside::{Clause, matrix_test, rows_values_test};
use sparse::{MAX_SIDE, Matrix};

// Whether the lists aren't those of a U: so many rows and entries, and the pivot table of its heads.
pub fn u_unsound(
    p: u32,
    ncols: u32,
    rank: usize,
    fill: usize,
    u_cols: &[u32],
    u_vals: &[u32],
    u_ptrs: &[usize],
    pivots: &[u32],
) -> bool
    requires { Opened p ncols pivots.now }
    ensures { result ≡ u_lost rank fill u_cols.now u_vals.now u_ptrs.now || u_fault p (u_rows ncols rank fill u_cols.now u_vals.now u_ptrs.now) pivots.now }
{
    if u_lost(rank, fill, u_cols, u_vals, u_ptrs) {
        return true;
    }
    if rank > MAX_SIDE as usize {
        return true;
    }
    let cols = &u_cols[..fill];
    let vals = &u_vals[..fill];
    u_fault(
        p,
        rank as u32,
        ncols,
        cols,
        vals,
        &u_ptrs[..rank + 1],
        pivots,
    )
}

// Whether U's rows or entries pass their places.
fn u_lost(rank: usize, fill: usize, cols: &[u32], vals: &[u32], ptrs: &[usize]) -> bool
    ensures { result ≡ u_lost rank fill cols.now vals.now ptrs.now }
{
    if places(ptrs.len()) <= rank {
        return true;
    }
    if places(cols.len()) < fill {
        return true;
    }
    places(vals.len()) < fill
}

// Whether U isn't clean, or the pivot table isn't that of its heads.
fn u_fault(
    p: u32,
    nrows: u32,
    ncols: u32,
    cols: &[u32],
    vals: &[u32],
    ptrs: &[usize],
    pivots: &[u32],
) -> bool
    requires { Sized p (matrix nrows ncols ptrs.now cols.now vals.now) pivots.now }
    ensures { result ≡ u_fault p (matrix nrows ncols ptrs.now cols.now vals.now) pivots.now }
{
    if matrix_test(
        p,
        Matrix {
            nrows,
            ncols,
            row_ptrs: ptrs,
            col_idcs: cols,
            values: vals,
        },
    )
    .is_err()
    {
        return true;
    }
    if rows_values_test(Clause::Nonzero, p, nrows, ptrs, vals).is_err() {
        return true;
    }
    if some_headless(nrows, ncols, cols, vals, ptrs, pivots) {
        return true;
    }
    some_misplaced(nrows, ncols, cols, vals, ptrs, pivots)
}

// Whether some row is empty, has another head than 1, or isn't held by the table at its head.
fn some_headless(
    nrows: u32,
    ncols: u32,
    cols: &[u32],
    vals: &[u32],
    ptrs: &[usize],
    pivots: &[u32],
) -> bool
    requires { Seated (matrix nrows ncols ptrs.now cols.now vals.now) pivots.now }
    ensures { result ≡ any nrows (headless (matrix nrows ncols ptrs.now cols.now vals.now) pivots.now) }
{
    for row in 0..nrows {
        if is_headless(nrows, ncols, cols, vals, ptrs, pivots, row) {
            return true;
        }
    }
    false
}

fn is_headless(
    nrows: u32,
    ncols: u32,
    cols: &[u32],
    vals: &[u32],
    ptrs: &[usize],
    pivots: &[u32],
    row: u32,
) -> bool
    requires { SeatedRow (matrix nrows ncols ptrs.now cols.now vals.now) pivots.now row }
    ensures { result ≡ headless (matrix nrows ncols ptrs.now cols.now vals.now) pivots.now row }
{
    let start = ptrs[row as usize];
    if ptrs[row as usize + 1] <= start {
        return true;
    }
    if vals[start] != 1 {
        return true;
    }
    let head = cols[start];
    pivots[head as usize] != row
}

// Whether the table has at some column neither the mark nor a row whose head is there.
fn some_misplaced(
    nrows: u32,
    ncols: u32,
    cols: &[u32],
    vals: &[u32],
    ptrs: &[usize],
    pivots: &[u32],
) -> bool
    requires { Headed (matrix nrows ncols ptrs.now cols.now vals.now) pivots.now }
    ensures { result ≡ any ncols (misplaced (matrix nrows ncols ptrs.now cols.now vals.now) pivots.now) }
{
    for col in 0..ncols {
        if is_misplaced(nrows, ncols, cols, vals, ptrs, pivots, col) {
            return true;
        }
    }
    false
}

fn is_misplaced(
    nrows: u32,
    ncols: u32,
    cols: &[u32],
    vals: &[u32],
    ptrs: &[usize],
    pivots: &[u32],
    col: u32,
) -> bool
    requires { HeadedColumn (matrix nrows ncols ptrs.now cols.now vals.now) pivots.now col }
    ensures { result ≡ misplaced (matrix nrows ncols ptrs.now cols.now vals.now) pivots.now col }
{
    let row = pivots[col as usize];
    if row == MARK {
        return false;
    }
    if row >= nrows {
        return true;
    }
    let start = ptrs[row as usize];
    cols[start] != col
}

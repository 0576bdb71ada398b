// All rows of a matrix.
ghost use Rattle.std.specs.Prelude.{◌≡◌};
ghost use Rattle.sparse.specs.Lent.{outcome};
ghost use Rattle.sparse.specs.Matrix.{seen};
ghost use Rattle.state.specs.Memory.{memory};
ghost use Rattle.running.specs.Rows.{night};
ghost use Rattle.batches.specs.Asks.{Begins, Anew};
ghost use Rattle.batches.specs.Batch.{take_matrix, take_anew};

use running::rows::take_rows;
use sparse::Matrix;
use state::start::{fresh_counts, start};
use state::{Counts, Mode};
use telling::Reduced;
use walk::kernels::wipe;

// A fresh start, then all rows. What the reducer's lists held is never read.
pub fn take_anew(
    on: bool,
    check: bool,
    p: u32,
    mode: Mode,
    matrix: Matrix,
    dense: &mut [u32],
    answers: &mut [u32],
    u_cols: &mut [u32],
    u_vals: &mut [u32],
    u_ptrs: &mut [usize],
    l_cols: &mut [u32],
    l_vals: &mut [u32],
    l_ptrs: &mut [usize],
    pivots: &mut [u32],
) -> Reduced
    requires { Anew p mode (seen matrix) (night (memory u_cols.old u_vals.old u_ptrs.old l_cols.old l_vals.old l_ptrs.old pivots.old) answers.old dense.old) }
    ensures { outcome result (night (memory u_cols.new u_vals.new u_ptrs.new l_cols.new l_vals.new l_ptrs.new pivots.new) answers.new dense.new) ≡ take_anew on check p mode (seen matrix.entry) (night (memory u_cols.old u_vals.old u_ptrs.old l_cols.old l_vals.old l_ptrs.old pivots.old) answers.old dense.old) }
{
    let Matrix { ncols, .. } = matrix;
    start(ncols, mode, u_ptrs, l_ptrs, pivots);
    take_all(
        on,
        check,
        fresh_counts(p, ncols, mode),
        matrix,
        dense,
        answers,
        u_cols,
        u_vals,
        u_ptrs,
        l_cols,
        l_vals,
        l_ptrs,
        pivots,
    )
}

// Takes rows that pass the tests. Dense memory may hold anything, so it is cleared before the first.
pub fn take_all(
    on: bool,
    check: bool,
    counts: Counts,
    matrix: Matrix,
    dense: &mut [u32],
    answers: &mut [u32],
    u_cols: &mut [u32],
    u_vals: &mut [u32],
    u_ptrs: &mut [usize],
    l_cols: &mut [u32],
    l_vals: &mut [u32],
    l_ptrs: &mut [usize],
    pivots: &mut [u32],
) -> Reduced
    requires { Begins counts (seen matrix) (night (memory u_cols.old u_vals.old u_ptrs.old l_cols.old l_vals.old l_ptrs.old pivots.old) answers.old dense.old) }
    ensures { outcome result (night (memory u_cols.new u_vals.new u_ptrs.new l_cols.new l_vals.new l_ptrs.new pivots.new) answers.new dense.new) ≡ take_matrix on check counts (seen matrix.entry) (night (memory u_cols.old u_vals.old u_ptrs.old l_cols.old l_vals.old l_ptrs.old pivots.old) answers.old dense.old) }
{
    let Matrix { ncols, .. } = matrix;
    let front = &mut dense[..ncols as usize];
    wipe(0, front);
    take_rows(
        on, check, counts, matrix, front, answers, u_cols, u_vals, u_ptrs, l_cols, l_vals, l_ptrs,
        pivots,
    )
}

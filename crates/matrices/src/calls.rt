// The calls that add many rows.
ghost use Rattle.std.specs.Prelude.{◌≡◌, true, false};
ghost use Rattle.sparse.specs.Lent.{outcome};
ghost use Rattle.sparse.specs.Matrix.{seen};
ghost use Rattle.state.specs.Memory.{memory};
ghost use Rattle.running.specs.Rows.{night};
ghost use Rattle.matrices.specs.Calls.{add_matrix};
ghost use Rattle.matrices.specs.Tests.{add_matrix_test};

use crate::tests::rows_test;
use batches::rows::take_all;
use batches::tests::short_test;
use sparse::{Matrix, Refusal};
use state::Counts;
use state::inside::state_test;
use telling::Reduced;

// Takes the rows of a matrix; or the lowest of 1 to 7, 11 and 13 that applies, and everything lent as it
// came. 14 at a row ends the call, and the rows before it stay.
pub fn add_matrix(
    counts: Counts,
    matrix: Matrix,
    dense: &mut [u32],
    answers: &mut [u32],
    u_cols: &mut [u32],
    u_vals: &mut [u32],
    u_ptrs: &mut [usize],
    l_cols: &mut [u32],
    l_vals: &mut [u32],
    l_ptrs: &mut [usize],
    pivots: &mut [u32],
) -> Reduced
    ensures { outcome result (night (memory u_cols.new u_vals.new u_ptrs.new l_cols.new l_vals.new l_ptrs.new pivots.new) answers.new dense.new) ≡ add_matrix false counts (seen matrix.entry) (night (memory u_cols.old u_vals.old u_ptrs.old l_cols.old l_vals.old l_ptrs.old pivots.old) answers.old dense.old) }
{
    add_rows(
        false, counts, matrix, dense, answers, u_cols, u_vals, u_ptrs, l_cols, l_vals, l_ptrs,
        pivots,
    )
}

// The same by the second walk.
pub fn add_matrix_with_back_subs(
    counts: Counts,
    matrix: Matrix,
    dense: &mut [u32],
    answers: &mut [u32],
    u_cols: &mut [u32],
    u_vals: &mut [u32],
    u_ptrs: &mut [usize],
    l_cols: &mut [u32],
    l_vals: &mut [u32],
    l_ptrs: &mut [usize],
    pivots: &mut [u32],
) -> Reduced
    ensures { outcome result (night (memory u_cols.new u_vals.new u_ptrs.new l_cols.new l_vals.new l_ptrs.new pivots.new) answers.new dense.new) ≡ add_matrix true counts (seen matrix.entry) (night (memory u_cols.old u_vals.old u_ptrs.old l_cols.old l_vals.old l_ptrs.old pivots.old) answers.old dense.old) }
{
    add_rows(
        true, counts, matrix, dense, answers, u_cols, u_vals, u_ptrs, l_cols, l_vals, l_ptrs,
        pivots,
    )
}

fn add_rows(
    on: bool,
    counts: Counts,
    matrix: Matrix,
    dense: &mut [u32],
    answers: &mut [u32],
    u_cols: &mut [u32],
    u_vals: &mut [u32],
    u_ptrs: &mut [usize],
    l_cols: &mut [u32],
    l_vals: &mut [u32],
    l_ptrs: &mut [usize],
    pivots: &mut [u32],
) -> Reduced
    ensures { outcome result (night (memory u_cols.new u_vals.new u_ptrs.new l_cols.new l_vals.new l_ptrs.new pivots.new) answers.new dense.new) ≡ add_matrix on counts (seen matrix.entry) (night (memory u_cols.old u_vals.old u_ptrs.old l_cols.old l_vals.old l_ptrs.old pivots.old) answers.old dense.old) }
{
    let tested = add_matrix_test(
        counts, matrix, dense, answers, u_cols, u_vals, u_ptrs, l_cols, l_vals, l_ptrs, pivots,
    );
    if let Err(why) = tested {
        return Reduced::Refused(why);
    }
    take_all(
        on, false, counts, matrix, dense, answers, u_cols, u_vals, u_ptrs, l_cols, l_vals, l_ptrs,
        pivots,
    )
}

fn add_matrix_test(
    counts: Counts,
    matrix: Matrix,
    dense: &[u32],
    answers: &[u32],
    u_cols: &[u32],
    u_vals: &[u32],
    u_ptrs: &[usize],
    l_cols: &[u32],
    l_vals: &[u32],
    l_ptrs: &[usize],
    pivots: &[u32],
) -> Result<(), Refusal>
    ensures { result ≡ add_matrix_test counts (seen matrix.entry) dense.now answers.now (memory u_cols.now u_vals.now u_ptrs.now l_cols.now l_vals.now l_ptrs.now pivots.now) }
{
    let Matrix { nrows, ncols, .. } = matrix;
    rows_test(counts.modulus, counts.ncols, matrix)?;
    short_test(nrows, ncols, dense, answers, pivots)?;
    state_test(
        counts, u_cols, u_vals, u_ptrs, l_cols, l_vals, l_ptrs, pivots,
    )
}

// The calls that start anew.
ghost use Rattle.std.specs.Prelude.{◌≡◌, true, false};
ghost use Rattle.sparse.specs.Lent.{outcome};
ghost use Rattle.sparse.specs.Matrix.{seen};
ghost use Rattle.state.specs.Memory.{memory};
ghost use Rattle.running.specs.Rows.{night};
ghost use Rattle.anew.specs.Calls.{from_matrix_test, from_matrix};

use batches::rows::take_anew;
use batches::tests::short_test;
use sparse::{Matrix, Refusal, try_from_csr_clean};
use state::Mode;
use state::start::start_test;
use telling::Reduced;

// A fresh start, then all rows; or the lowest of 1 to 7, 11 and, where a first pointer has no place, 14,
// and everything lent as it came. What the reducer's lists held is never read.
pub fn from_matrix(
    p: u32,
    mode: Mode,
    matrix: Matrix,
    dense: &mut [u32],
    answers: &mut [u32],
    u_cols: &mut [u32],
    u_vals: &mut [u32],
    u_ptrs: &mut [usize],
    l_cols: &mut [u32],
    l_vals: &mut [u32],
    l_ptrs: &mut [usize],
    pivots: &mut [u32],
) -> Reduced
    ensures { outcome result (night (memory u_cols.new u_vals.new u_ptrs.new l_cols.new l_vals.new l_ptrs.new pivots.new) answers.new dense.new) ≡ from_matrix false false p mode (seen matrix.entry) (night (memory u_cols.old u_vals.old u_ptrs.old l_cols.old l_vals.old l_ptrs.old pivots.old) answers.old dense.old) }
{
    from_rows(
        false, false, p, mode, matrix, dense, answers, u_cols, u_vals, u_ptrs, l_cols, l_vals,
        l_ptrs, pivots,
    )
}

// The same by the second walk.
pub fn from_matrix_with_back_subs(
    p: u32,
    mode: Mode,
    matrix: Matrix,
    dense: &mut [u32],
    answers: &mut [u32],
    u_cols: &mut [u32],
    u_vals: &mut [u32],
    u_ptrs: &mut [usize],
    l_cols: &mut [u32],
    l_vals: &mut [u32],
    l_ptrs: &mut [usize],
    pivots: &mut [u32],
) -> Reduced
    ensures { outcome result (night (memory u_cols.new u_vals.new u_ptrs.new l_cols.new l_vals.new l_ptrs.new pivots.new) answers.new dense.new) ≡ from_matrix true false p mode (seen matrix.entry) (night (memory u_cols.old u_vals.old u_ptrs.old l_cols.old l_vals.old l_ptrs.old pivots.old) answers.old dense.old) }
{
    from_rows(
        true, false, p, mode, matrix, dense, answers, u_cols, u_vals, u_ptrs, l_cols, l_vals,
        l_ptrs, pivots,
    )
}

// As `from_matrix`, but the first row that is answered None ends the call.
pub fn from_matrix_check_dependent(
    p: u32,
    mode: Mode,
    matrix: Matrix,
    dense: &mut [u32],
    answers: &mut [u32],
    u_cols: &mut [u32],
    u_vals: &mut [u32],
    u_ptrs: &mut [usize],
    l_cols: &mut [u32],
    l_vals: &mut [u32],
    l_ptrs: &mut [usize],
    pivots: &mut [u32],
) -> Reduced
    ensures { outcome result (night (memory u_cols.new u_vals.new u_ptrs.new l_cols.new l_vals.new l_ptrs.new pivots.new) answers.new dense.new) ≡ from_matrix false true p mode (seen matrix.entry) (night (memory u_cols.old u_vals.old u_ptrs.old l_cols.old l_vals.old l_ptrs.old pivots.old) answers.old dense.old) }
{
    from_rows(
        false, true, p, mode, matrix, dense, answers, u_cols, u_vals, u_ptrs, l_cols, l_vals,
        l_ptrs, pivots,
    )
}

// The same by the second walk.
pub fn from_matrix_check_dependent_with_back_subs(
    p: u32,
    mode: Mode,
    matrix: Matrix,
    dense: &mut [u32],
    answers: &mut [u32],
    u_cols: &mut [u32],
    u_vals: &mut [u32],
    u_ptrs: &mut [usize],
    l_cols: &mut [u32],
    l_vals: &mut [u32],
    l_ptrs: &mut [usize],
    pivots: &mut [u32],
) -> Reduced
    ensures { outcome result (night (memory u_cols.new u_vals.new u_ptrs.new l_cols.new l_vals.new l_ptrs.new pivots.new) answers.new dense.new) ≡ from_matrix true true p mode (seen matrix.entry) (night (memory u_cols.old u_vals.old u_ptrs.old l_cols.old l_vals.old l_ptrs.old pivots.old) answers.old dense.old) }
{
    from_rows(
        true, true, p, mode, matrix, dense, answers, u_cols, u_vals, u_ptrs, l_cols, l_vals,
        l_ptrs, pivots,
    )
}

// 1 to 7 of the rows, 11, and 14 at the fresh start.
fn from_matrix_test(
    p: u32,
    mode: Mode,
    matrix: Matrix,
    dense: &[u32],
    answers: &[u32],
    u_ptrs: &[usize],
    l_ptrs: &[usize],
    pivots: &[u32],
) -> Result<(), Refusal>
    ensures { result ≡ from_matrix_test p mode (seen matrix.entry) dense.now answers.now u_ptrs.now l_ptrs.now pivots.now }
{
    let Matrix { nrows, ncols, .. } = matrix;
    try_from_csr_clean(p, matrix)?;
    short_test(nrows, ncols, dense, answers, pivots)?;
    start_test(mode, u_ptrs, l_ptrs)
}

fn from_rows(
    on: bool,
    check: bool,
    p: u32,
    mode: Mode,
    matrix: Matrix,
    dense: &mut [u32],
    answers: &mut [u32],
    u_cols: &mut [u32],
    u_vals: &mut [u32],
    u_ptrs: &mut [usize],
    l_cols: &mut [u32],
    l_vals: &mut [u32],
    l_ptrs: &mut [usize],
    pivots: &mut [u32],
) -> Reduced
    ensures { outcome result (night (memory u_cols.new u_vals.new u_ptrs.new l_cols.new l_vals.new l_ptrs.new pivots.new) answers.new dense.new) ≡ from_matrix on check p mode (seen matrix.entry) (night (memory u_cols.old u_vals.old u_ptrs.old l_cols.old l_vals.old l_ptrs.old pivots.old) answers.old dense.old) }
{
    let tested = from_matrix_test(p, mode, matrix, dense, answers, u_ptrs, l_ptrs, pivots);
    if let Err(why) = tested {
        return Reduced::Refused(why);
    }
    take_anew(
        on, check, p, mode, matrix, dense, answers, u_cols, u_vals, u_ptrs, l_cols, l_vals, l_ptrs,
        pivots,
    )
}

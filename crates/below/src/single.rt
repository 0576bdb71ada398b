// One row below a matrix. The result goes to separate lent memory.
ghost use Rattle.std.specs.Prelude.{◌≡◌};
ghost use Rattle.sparse.specs.Lent.{lent, outcome};
ghost use Rattle.sparse.specs.Matrix.{seen};
ghost use Rattle.below.specs.Below.{add_row, add_row_test};

use crate::rows::write_rows;
use joining::inside::{forms_test, sizes_test};
use sparse::inside::room_test;
use sparse::{Matrix, Refusal};

// The matrix with the row last; or the lowest of 1 to 6 and 14 that applies, and the memory as it came.
pub fn add_row(
    p: u32,
    matrix: Matrix,
    cols: &[u32],
    vals: &[u32],
    out_ptrs: &mut [usize],
    out_cols: &mut [u32],
    out_vals: &mut [u32],
) -> Result<usize, Refusal>
    ensures { outcome result (lent out_ptrs.new out_cols.new out_vals.new) ≡ add_row p (seen matrix.entry) cols.now vals.now (lent out_ptrs.old out_cols.old out_vals.old) }
{
    let Matrix {
        nrows,
        row_ptrs,
        col_idcs,
        values,
        ..
    } = matrix;
    add_row_test(p, matrix, cols, vals)?;
    let entries = values.len() + vals.len();
    room_test(nrows + 1, entries, out_ptrs, out_cols, out_vals)?;
    let ptrs: [usize; 2] = [0, vals.len()];
    write_rows(
        nrows, row_ptrs, col_idcs, values, 1, &ptrs, cols, vals, out_ptrs, out_cols, out_vals,
    );
    Ok(entries)
}

// 1 to 6 of the matrix and of the row, and 2 of the result.
fn add_row_test(p: u32, matrix: Matrix, cols: &[u32], vals: &[u32]) -> Result<(), Refusal>
    ensures { result ≡ add_row_test p (seen matrix.entry) cols.now vals.now }
{
    let Matrix {
        nrows,
        ncols,
        values,
        ..
    } = matrix;
    sizes_test(p, nrows, ncols, values.len(), 1, ncols, vals.len(), 1, 0)?;
    forms_test(p, matrix, ncols, cols, vals)
}

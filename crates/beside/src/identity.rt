// The identity beside a matrix. The result goes to separate lent memory, row by row.
ghost use Rattle.std.specs.Prelude.{◌≡◌};
ghost use Rattle.lists.specs.Table.{table};
ghost use Rattle.sparse.specs.Lent.{lent, outcome};
ghost use Rattle.sparse.specs.Matrix.{seen};
ghost use Rattle.sparse.specs.Put.{put_rows};
ghost use Rattle.beside.specs.Asks.{OnesFit};
ghost use Rattle.beside.specs.Beside.{with_one, append_identity, append_identity_test};

use sparse::inside::{matrix_test, modulus_test, room_test, size_test};
use sparse::{MAX_ENTRIES, Matrix, Refusal};
use writing::inside::put_row_and;

// The matrix with the identity beside it, 1 at column n + row; or the lowest of 1 to 6, 10 and 14
// that applies, and the memory as it came.
pub fn append_identity(
    p: u32,
    matrix: Matrix,
    out_ptrs: &mut [usize],
    out_cols: &mut [u32],
    out_vals: &mut [u32],
) -> Result<usize, Refusal>
    ensures { outcome result (lent out_ptrs.new out_cols.new out_vals.new) ≡ append_identity p (seen matrix.entry) (lent out_ptrs.old out_cols.old out_vals.old) }
{
    let Matrix { nrows, values, .. } = matrix;
    append_identity_test(p, matrix)?;
    let entries = values.len() + nrows as usize;
    room_test(nrows, entries, out_ptrs, out_cols, out_vals)?;
    write_identity(matrix, out_ptrs, out_cols, out_vals);
    Ok(entries)
}

// 1 to 6 of the matrix, 2 of the result, and 10.
fn append_identity_test(p: u32, matrix: Matrix) -> Result<(), Refusal>
    ensures { result ≡ append_identity_test p (seen matrix.entry) }
{
    let Matrix {
        nrows,
        ncols,
        values,
        ..
    } = matrix;
    modulus_test(p)?;
    size_test(MAX_ENTRIES, nrows, ncols, values.len())?;
    let entries = values.len() + nrows as usize;
    size_test(MAX_ENTRIES, nrows, ncols + nrows, entries)?;
    matrix_test(p, matrix)?;
    if nrows != ncols {
        return Err(Refusal::NotSquare);
    }
    Ok(())
}

// Writes each row with its 1.
fn write_identity(
    matrix: Matrix,
    out_ptrs: &mut [usize],
    out_cols: &mut [u32],
    out_vals: &mut [u32],
)
    requires { OnesFit (seen matrix) (lent out_ptrs.old out_cols.old out_vals.old) }
    ensures { lent out_ptrs.new out_cols.new out_vals.new ≡ put_rows (table matrix.entry.nrows (with_one (seen matrix.entry))) (lent out_ptrs.old out_cols.old out_vals.old) }
{
    let Matrix {
        nrows,
        ncols,
        row_ptrs,
        col_idcs,
        values,
    } = matrix;
    out_ptrs[0] = 0;
    let mut at = 0;
    for row in 0..nrows {
        let i = row as usize;
        at = put_row_and(
            row_ptrs,
            col_idcs,
            values,
            i,
            ncols + row,
            1,
            at,
            out_cols,
            out_vals,
        );
        out_ptrs[i + 1] = at;
    }
}

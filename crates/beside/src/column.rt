// A vector as a matrix's last column. The result goes to separate lent memory, row by row.
ghost use Rattle.std.specs.Prelude.{◌≡◌, ◌++◌, ◌+◌, ltb};
ghost use Rattle.lists.specs.Find.{count};
ghost use Rattle.lists.specs.Table.{table};
ghost use Rattle.sparse.specs.Lent.{lent, outcome};
ghost use Rattle.sparse.specs.Matrix.{seen};
ghost use Rattle.sparse.specs.Put.{put_rows};
ghost use Rattle.sparse.specs.Rows.{entries};
ghost use Rattle.writing.specs.Puts.{put, more};
ghost use Rattle.beside.specs.Asks.{Cursor, ColumnRow, ColumnFits};
ghost use Rattle.beside.specs.Beside.{with_column, append_col, append_col_test};
ghost use Rattle.beside.specs.Parts.{in_column};

use joining::inside::{forms_test, sizes_test};
use sparse::inside::room_test;
use sparse::{Matrix, Refusal};
use writing::inside::{put_matrix_row, put_row_and};

// The matrix with the vector as its last column, n; or the lowest of 1 to 6, 11 and 14 that applies,
// and the memory as it came.
pub fn append_col(
    p: u32,
    matrix: Matrix,
    len: u32,
    idcs: &[u32],
    col_values: &[u32],
    out_ptrs: &mut [usize],
    out_cols: &mut [u32],
    out_vals: &mut [u32],
) -> Result<usize, Refusal>
    ensures { outcome result (lent out_ptrs.new out_cols.new out_vals.new) ≡ append_col p (seen matrix.entry) len idcs.now col_values.now (lent out_ptrs.old out_cols.old out_vals.old) }
{
    let Matrix { nrows, values, .. } = matrix;
    append_col_test(p, matrix, len, idcs, col_values)?;
    let entries = values.len() + col_values.len();
    room_test(nrows, entries, out_ptrs, out_cols, out_vals)?;
    write_column(matrix, idcs, col_values, out_ptrs, out_cols, out_vals);
    Ok(entries)
}

// 1 to 6 of both, 2 of the result, and 11.
fn append_col_test(
    p: u32,
    matrix: Matrix,
    len: u32,
    idcs: &[u32],
    col_values: &[u32],
) -> Result<(), Refusal>
    ensures { result ≡ append_col_test p (seen matrix.entry) len idcs.now col_values.now }
{
    let Matrix {
        nrows,
        ncols,
        values,
        ..
    } = matrix;
    sizes_test(
        p,
        nrows,
        ncols,
        values.len(),
        1,
        len,
        col_values.len(),
        0,
        1,
    )?;
    forms_test(p, matrix, len, idcs, col_values)?;
    if len != nrows {
        return Err(Refusal::Mismatch);
    }
    Ok(())
}

// Writes each row with the vector's entry; `next` is the first entry that isn't written.
fn write_column(
    matrix: Matrix,
    idcs: &[u32],
    nums: &[u32],
    out_ptrs: &mut [usize],
    out_cols: &mut [u32],
    out_vals: &mut [u32],
)
    requires { ColumnFits (seen matrix) idcs.now nums.now (lent out_ptrs.old out_cols.old out_vals.old) }
    ensures { lent out_ptrs.new out_cols.new out_vals.new ≡ put_rows (table matrix.entry.nrows (with_column (seen matrix.entry) (entries idcs.now nums.now))) (lent out_ptrs.old out_cols.old out_vals.old) }
{
    let Matrix {
        nrows,
        ncols,
        row_ptrs,
        col_idcs,
        values,
    } = matrix;
    out_ptrs[0] = 0;
    let mut at = 0;
    let mut next = 0;
    for row in 0..nrows {
        at = put_column_row(
            ncols, row_ptrs, col_idcs, values, row, idcs, nums, next, at, out_cols, out_vals,
        );
        next = past_row(idcs, next, row);
        out_ptrs[row as usize + 1] = at;
    }
}

// Writes a row and, where the vector has an entry of its index, that in column n.
fn put_column_row(
    n: u32,
    row_ptrs: &[usize],
    col_idcs: &[u32],
    values: &[u32],
    row: u32,
    idcs: &[u32],
    nums: &[u32],
    next: usize,
    at: usize,
    out_cols: &mut [u32],
    out_vals: &mut [u32],
) -> usize
    requires { ColumnRow row_ptrs.now col_idcs.now values.now idcs.now nums.now n row next (put at out_cols.old out_vals.old) }
    ensures { put result out_cols.new out_vals.new ≡ more (Rattle.sparse.specs.Matrix.row row_ptrs.now (entries col_idcs.now values.now) row ++ in_column n (entries idcs.now nums.now) row) (put at out_cols.old out_vals.old) }
{
    let i = row as usize;
    let after = past_row(idcs, next, row);
    if after == next {
        return put_matrix_row(row_ptrs, col_idcs, values, i, at, out_cols, out_vals);
    }
    let val = nums[next];
    put_row_and(
        row_ptrs, col_idcs, values, i, n, val, at, out_cols, out_vals,
    )
}

// Where the cursor stands after the row.
fn past_row(idcs: &[u32], next: usize, row: u32) -> usize
    requires { Cursor idcs.now row next }
    ensures { result ≡ count (λ c. ltb c (row + 1)) idcs.now }
{
    if next < idcs.len() {
        if idcs[next] == row {
            return next + 1;
        }
    }
    next
}

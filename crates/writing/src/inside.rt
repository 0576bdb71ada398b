// Writing entries, and rows of a matrix, one after the other to lent columns and values.
ghost use Rattle.std.specs.Prelude.{◌≡◌, [], ◌∷◌, ◌++◌};
ghost use Rattle.sparse.specs.Matrix.{row};
ghost use Rattle.sparse.specs.Rows.{entry, entries};
ghost use Rattle.writing.specs.Asks.{RowPut};
ghost use Rattle.writing.specs.Puts.{put, more, Fits, RowFits};

use sparse::inside::copy;

// Writes one entry at `at`, and answers where the next one goes.
pub fn put_entry(col: u32, val: u32, at: usize, col_idcs: &mut [u32], values: &mut [u32]) -> usize
    requires { Fits 1 (put at col_idcs.old values.old) }
    ensures { put result col_idcs.new values.new ≡ more (entry col val ∷ []) (put at col_idcs.old values.old) }
{
    col_idcs[at] = col;
    values[at] = val;
    at + 1
}

// Writes a row's entries from `at` on, and answers where the next one goes.
pub fn put_row(
    cols: &[u32],
    vals: &[u32],
    at: usize,
    col_idcs: &mut [u32],
    values: &mut [u32],
) -> usize
    requires { RowFits cols.now vals.now (put at col_idcs.old values.old) }
    ensures { put result col_idcs.new values.new ≡ more (entries cols.now vals.now) (put at col_idcs.old values.old) }
{
    copy(cols, &mut col_idcs[at..]);
    copy(vals, &mut values[at..]);
    at + cols.len()
}

// Writes row i of a matrix from `at` on, and answers where the next entry goes.
pub fn put_matrix_row(
    row_ptrs: &[usize],
    col_idcs: &[u32],
    values: &[u32],
    i: usize,
    at: usize,
    out_cols: &mut [u32],
    out_vals: &mut [u32],
) -> usize
    requires { RowPut row_ptrs.now col_idcs.now values.now i 0 (put at out_cols.old out_vals.old) }
    ensures { put result out_cols.new out_vals.new ≡ more (row row_ptrs.now (entries col_idcs.now values.now) i) (put at out_cols.old out_vals.old) }
{
    let start = row_ptrs[i];
    let stop = row_ptrs[i + 1];
    let cols = &col_idcs[start..stop];
    let vals = &values[start..stop];
    put_row(cols, vals, at, out_cols, out_vals)
}

// Writes row i of a matrix and one entry more.
pub fn put_row_and(
    row_ptrs: &[usize],
    col_idcs: &[u32],
    values: &[u32],
    i: usize,
    col: u32,
    val: u32,
    at: usize,
    out_cols: &mut [u32],
    out_vals: &mut [u32],
) -> usize
    requires { RowPut row_ptrs.now col_idcs.now values.now i 1 (put at out_cols.old out_vals.old) }
    ensures { put result out_cols.new out_vals.new ≡ more (row row_ptrs.now (entries col_idcs.now values.now) i ++ (entry col val ∷ [])) (put at out_cols.old out_vals.old) }
{
    let next = put_matrix_row(row_ptrs, col_idcs, values, i, at, out_cols, out_vals);
    put_entry(col, val, next, out_cols, out_vals)
}

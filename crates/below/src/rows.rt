// Writing the rows of two matrices, one after the other.
ghost use Rattle.std.specs.Prelude.{◌≡◌, ◌++◌};
ghost use Rattle.sparse.specs.Lent.{lent};
ghost use Rattle.sparse.specs.Matrix.{row};
ghost use Rattle.sparse.specs.Put.{put_rows};
ghost use Rattle.sparse.specs.Rows.{entries};
ghost use Rattle.writing.specs.Puts.{put, more};
ghost use Rattle.below.specs.Asks.{EitherRow, RowsFit};
ghost use Rattle.below.specs.Parts.{either, rows_in};

use writing::inside::put_matrix_row;

// Writes the rows of one matrix, then those of another.
pub fn write_rows(
    nrows: u32,
    row_ptrs: &[usize],
    col_idcs: &[u32],
    values: &[u32],
    more_nrows: u32,
    more_ptrs: &[usize],
    more_cols: &[u32],
    more_values: &[u32],
    out_ptrs: &mut [usize],
    out_cols: &mut [u32],
    out_vals: &mut [u32],
)
    requires { RowsFit nrows row_ptrs.now col_idcs.now values.now more_nrows more_ptrs.now more_cols.now more_values.now (lent out_ptrs.old out_cols.old out_vals.old) }
    ensures { lent out_ptrs.new out_cols.new out_vals.new ≡ put_rows (rows_in nrows row_ptrs.now col_idcs.now values.now ++ rows_in more_nrows more_ptrs.now more_cols.now more_values.now) (lent out_ptrs.old out_cols.old out_vals.old) }
{
    out_ptrs[0] = 0;
    let first = nrows as usize;
    let total = first + more_nrows as usize;
    let mut at = 0;
    for i in 0..total {
        at = put_either_row(
            first,
            row_ptrs,
            col_idcs,
            values,
            more_ptrs,
            more_cols,
            more_values,
            i,
            at,
            out_cols,
            out_vals,
        );
        out_ptrs[i + 1] = at;
    }
}

// Writes row i of two matrices, of which the first has n rows.
fn put_either_row(
    n: usize,
    row_ptrs: &[usize],
    col_idcs: &[u32],
    values: &[u32],
    more_ptrs: &[usize],
    more_cols: &[u32],
    more_values: &[u32],
    i: usize,
    at: usize,
    out_cols: &mut [u32],
    out_vals: &mut [u32],
) -> usize
    requires { EitherRow n row_ptrs.now col_idcs.now values.now more_ptrs.now more_cols.now more_values.now i (put at out_cols.old out_vals.old) }
    ensures { put result out_cols.new out_vals.new ≡ more (either n (row row_ptrs.now (entries col_idcs.now values.now)) (row more_ptrs.now (entries more_cols.now more_values.now)) i) (put at out_cols.old out_vals.old) }
{
    if i < n {
        return put_matrix_row(row_ptrs, col_idcs, values, i, at, out_cols, out_vals);
    }
    put_matrix_row(
        more_ptrs,
        more_cols,
        more_values,
        i - n,
        at,
        out_cols,
        out_vals,
    )
}

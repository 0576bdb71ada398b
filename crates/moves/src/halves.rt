// The right half of a matrix, its rows reversed.
ghost use Rattle.std.specs.Prelude.{◌≡◌, leb};
ghost use Rattle.lists.specs.Find.{count};
ghost use Rattle.sparse.specs.Lent.{lent, outcome};
ghost use Rattle.sparse.specs.Matrix.{row, seen};
ghost use Rattle.sparse.specs.Put.{put_rows};
ghost use Rattle.sparse.specs.Rows.{entries};
ghost use Rattle.writing.specs.Puts.{put, more};
ghost use Rattle.moves.specs.Asks.{RightFits, RightRow, RightsFit};
ghost use Rattle.moves.specs.Moves.{right_of, take_rev_test, take_rev_right_half};
ghost use Rattle.moves.specs.Parts.{right_rows};

use sparse::inside::{room_test, well_formed};
use sparse::{MAX_ENTRIES, Matrix, Refusal};
use writing::inside::put_entry;

// The columns from n/2 on, renumbered from 0, the rows reversed; or the lowest of 1 to 6, 11 and 14 that
// applies, and the memory as it came.
pub fn take_rev_right_half(
    p: u32,
    matrix: Matrix,
    out_ptrs: &mut [usize],
    out_cols: &mut [u32],
    out_vals: &mut [u32],
) -> Result<usize, Refusal>
    ensures { outcome result (lent out_ptrs.new out_cols.new out_vals.new) ≡ take_rev_right_half p (seen matrix.entry) (lent out_ptrs.old out_cols.old out_vals.old) }
{
    let Matrix {
        nrows,
        ncols,
        row_ptrs,
        col_idcs,
        values,
    } = matrix;
    take_rev_test(p, matrix)?;
    let half = ncols / 2;
    let entries = count_from(half, col_idcs);
    room_test(nrows, entries, out_ptrs, out_cols, out_vals)?;
    write_right(
        nrows, half, row_ptrs, col_idcs, values, out_ptrs, out_cols, out_vals,
    );
    Ok(entries)
}

// 1 to 6 of the matrix, and 11.
fn take_rev_test(p: u32, matrix: Matrix) -> Result<(), Refusal>
    ensures { result ≡ take_rev_test p (seen matrix.entry) }
{
    let Matrix { ncols, .. } = matrix;
    well_formed(MAX_ENTRIES, p, matrix)?;
    if ncols % 2 != 0 {
        return Err(Refusal::Mismatch);
    }
    Ok(())
}

// How many columns are h or more: the entries of the result, so that 14 is decided before any is
// written.
fn count_from(h: u32, cols: &[u32]) -> usize
    ensures { result ≡ count (leb h) cols.now }
{
    let mut found = 0;
    // A loop: `filter` and `count` take over twice the instructions.
    for col in cols {
        if h <= *col {
            found += 1;
        }
    }
    found
}

// Writes the columns from h on of each row, the last row first.
fn write_right(
    nrows: u32,
    h: u32,
    row_ptrs: &[usize],
    col_idcs: &[u32],
    values: &[u32],
    out_ptrs: &mut [usize],
    out_cols: &mut [u32],
    out_vals: &mut [u32],
)
    requires { RightsFit nrows h row_ptrs.now col_idcs.now values.now (lent out_ptrs.old out_cols.old out_vals.old) }
    ensures { lent out_ptrs.new out_cols.new out_vals.new ≡ put_rows (right_rows nrows h row_ptrs.now col_idcs.now values.now) (lent out_ptrs.old out_cols.old out_vals.old) }
{
    out_ptrs[0] = 0;
    let rows = nrows as usize;
    let mut at = 0;
    for i in 0..rows {
        at = put_right_row(
            h,
            row_ptrs,
            col_idcs,
            values,
            rows - 1 - i,
            at,
            out_cols,
            out_vals,
        );
        out_ptrs[i + 1] = at;
    }
}

// Writes the columns from h on of row i.
fn put_right_row(
    h: u32,
    row_ptrs: &[usize],
    col_idcs: &[u32],
    values: &[u32],
    i: usize,
    at: usize,
    out_cols: &mut [u32],
    out_vals: &mut [u32],
) -> usize
    requires { RightRow h row_ptrs.now col_idcs.now values.now i (put at out_cols.old out_vals.old) }
    ensures { put result out_cols.new out_vals.new ≡ more (right_of h (row row_ptrs.now (entries col_idcs.now values.now) i)) (put at out_cols.old out_vals.old) }
{
    let start = row_ptrs[i];
    let stop = row_ptrs[i + 1];
    let cols = &col_idcs[start..stop];
    let vals = &values[start..stop];
    put_right(h, cols, vals, at, out_cols, out_vals)
}

// Writes a row's entries from column h on, renumbered from 0, and answers where the next one goes.
fn put_right(
    h: u32,
    cols: &[u32],
    vals: &[u32],
    at: usize,
    out_cols: &mut [u32],
    out_vals: &mut [u32],
) -> usize
    requires { RightFits h cols.now vals.now (put at out_cols.old out_vals.old) }
    ensures { put result out_cols.new out_vals.new ≡ more (right_of h (entries cols.now vals.now)) (put at out_cols.old out_vals.old) }
{
    let mut next = at;
    // By number: with `zip` over both the whole call takes a quarter more instructions.
    for (k, &col) in cols.iter().enumerate() {
        if col < h {
            continue;
        }
        next = put_entry(col - h, vals[k], next, out_cols, out_vals);
    }
    next
}

// Whether a matrix is the identity; stored zeros count for nothing.
ghost use Rattle.std.specs.Prelude.{◌≡◌, not, ◌&&◌, cond, eqb, length, get_or};
ghost use Rattle.lists.specs.Find.{any};
ghost use Rattle.sparse.specs.Matrix.{value_in, value_at, seen};
ghost use Rattle.readers.specs.Asks.{Climbing, SquareRow, Square};
ghost use Rattle.readers.specs.Readers.{is_one};

use sparse::inside::well_formed;
use sparse::{MAX_ENTRIES, Matrix, Refusal};

// Whether it is 1 on the diagonal and 0 elsewhere; or the lowest of 1 to 6 that applies.
pub fn is_one(p: u32, matrix: Matrix) -> Result<bool, Refusal>
    ensures { result ≡ is_one p (seen matrix.entry) }
{
    let Matrix { nrows, ncols, .. } = matrix;
    well_formed(MAX_ENTRIES, p, matrix)?;
    if nrows != ncols {
        return Ok(false);
    }
    Ok(!some_row_off(matrix))
}

// Whether some row differs from the identity's.
fn some_row_off(matrix: Matrix) -> bool
    requires { Square (seen matrix) }
    ensures { result ≡ any matrix.entry.nrows (λ i. any matrix.entry.ncols (λ j. not (eqb (value_at (seen matrix.entry) i j) (cond (eqb i j) 1 0)))) }
{
    let Matrix {
        nrows,
        ncols,
        row_ptrs,
        col_idcs,
        values,
    } = matrix;
    for row in 0..nrows {
        let start = row_ptrs[row as usize];
        let stop = row_ptrs[row as usize + 1];
        if row_off(ncols, &col_idcs[start..stop], &values[start..stop], row) {
            return true;
        }
    }
    false
}

// Whether a row differs from the identity's.
fn row_off(ncols: u32, cols: &[u32], vals: &[u32], row: u32) -> bool
    requires { SquareRow ncols cols.now vals.now row }
    ensures { result ≡ any ncols (λ j. not (eqb (value_in cols.now vals.now j) (cond (eqb row j) 1 0))) }
{
    if value_in(ncols, cols, vals, row) != 1 {
        return true;
    }
    holds_other(cols, vals, row)
}

// The value at a column of a row.
fn value_in(ncols: u32, cols: &[u32], vals: &[u32], col: u32) -> u32
    requires { Climbing ncols cols.now vals.now }
    ensures { result ≡ value_in cols.now vals.now col }
{
    for (&here, &value) in cols.iter().zip(vals) {
        if here == col {
            return value;
        }
    }
    0
}

// Whether a row holds a value that is not 0 at another column.
fn holds_other(cols: &[u32], vals: &[u32], col: u32) -> bool
    requires { length cols.now ≡ length vals.now }
    ensures { result ≡ any (length cols.now) (λ k. not (eqb (get_or cols.now k 0) col) && not (eqb (get_or vals.now k 0) 0)) }
{
    for (&here, &value) in cols.iter().zip(vals) {
        if here != col && value != 0 {
            return true;
        }
    }
    false
}

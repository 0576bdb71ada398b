// What is tested of a matrix and of a vector or a second matrix together, in the table's order.
ghost use Rattle.std.specs.Prelude.{◌≡◌, ◌≤◌};
ghost use Rattle.sparse.specs.Matrix.{seen};
ghost use Rattle.sparse.specs.Refusals.{lowest};
ghost use Rattle.joining.specs.Asks.{Adds};
ghost use Rattle.joining.specs.Joined.{sizes_tests, forms_tests};

use sparse::inside::{
    Clause, columns_test, modulus_test, rows_test, rows_values_test, shape_test, size_test,
    values_test,
};
use sparse::{MAX_ENTRIES, Matrix, Refusal};

// 1, then 2 of both parts and of the result. No sum is formed before its parts are within the limits.
pub fn sizes_test(
    p: u32,
    nrows: u32,
    ncols: u32,
    entries: usize,
    more_rows: u32,
    more_cols: u32,
    more_entries: usize,
    add_rows: u32,
    add_cols: u32,
) -> Result<(), Refusal>
    requires { Adds more_rows add_rows add_cols }
    ensures { result ≡ lowest (sizes_tests p nrows ncols entries more_rows more_cols more_entries add_rows add_cols) }
{
    modulus_test(p)?;
    size_test(MAX_ENTRIES, nrows, ncols, entries)?;
    size_test(MAX_ENTRIES, more_rows, more_cols, more_entries)?;
    let rows = nrows + add_rows;
    let cols = ncols + add_cols;
    size_test(MAX_ENTRIES, rows, cols, entries + more_entries)
}

// 3 to 6 of a matrix and of a vector of length `len`.
pub fn forms_test(
    p: u32,
    matrix: Matrix,
    len: u32,
    idcs: &[u32],
    nums: &[u32],
) -> Result<(), Refusal>
    requires { matrix.nrows ≤ 1024 }
    ensures { result ≡ lowest (forms_tests p (seen matrix.entry) len idcs.now nums.now) }
{
    let Matrix {
        nrows,
        ncols,
        row_ptrs,
        col_idcs,
        values,
    } = matrix;
    shape_test(matrix)?;
    if idcs.len() != nums.len() {
        return Err(Refusal::Shape);
    }
    rows_test(nrows, ncols, row_ptrs, col_idcs)?;
    columns_test(len, idcs)?;
    rows_values_test(Clause::Residue, p, nrows, row_ptrs, values)?;
    values_test(Clause::Residue, p, nums)
}

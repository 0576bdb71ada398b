// The tests of a call that adds one row.
ghost use Rattle.std.specs.Prelude.{◌≡◌};
ghost use Rattle.sparse.specs.Refusals.{lowest};
ghost use Rattle.state.specs.Memory.{memory};
ghost use Rattle.adding.specs.RowTests.{row_tests, short_test, add_row_test};

use sparse::inside::{Clause, columns_test, modulus_test, size_test, values_test};
use sparse::{MAX_ENTRIES, Refusal};
use state::Counts;
use state::inside::state_test;

// 1 to 7 of the record and the row, 11, and 13.
pub fn add_row_test(
    counts: Counts,
    cols: &[u32],
    vals: &[u32],
    dense: &[u32],
    u_cols: &[u32],
    u_vals: &[u32],
    u_ptrs: &[usize],
    l_cols: &[u32],
    l_vals: &[u32],
    l_ptrs: &[usize],
    pivots: &[u32],
) -> Result<(), Refusal>
    ensures { result ≡ add_row_test counts cols.now vals.now dense.now (memory u_cols.now u_vals.now u_ptrs.now l_cols.now l_vals.now l_ptrs.now pivots.now) }
{
    row_test(counts.modulus, counts.ncols, cols, vals)?;
    short_test(counts.ncols, dense, pivots)?;
    state_test(
        counts, u_cols, u_vals, u_ptrs, l_cols, l_vals, l_ptrs, pivots,
    )
}

// 1, 2, 3, 5, 6 and 7 of a row that a reducer takes.
pub fn row_test(p: u32, ncols: u32, cols: &[u32], vals: &[u32]) -> Result<(), Refusal>
    ensures { result ≡ lowest (row_tests p ncols cols.now vals.now) }
{
    modulus_test(p)?;
    size_test(MAX_ENTRIES, 1, ncols, vals.len())?;
    if cols.len() != vals.len() {
        return Err(Refusal::Shape);
    }
    columns_test(ncols, cols)?;
    values_test(Clause::Residue, p, vals)?;
    values_test(Clause::Nonzero, p, vals)
}

// 11 of dense memory and the pivot table.
pub fn short_test(ncols: u32, dense: &[u32], pivots: &[u32]) -> Result<(), Refusal>
    ensures { result ≡ short_test ncols dense.now pivots.now }
{
    if dense.len() < ncols as usize {
        return Err(Refusal::Mismatch);
    }
    if pivots.len() < ncols as usize {
        return Err(Refusal::Mismatch);
    }
    Ok(())
}

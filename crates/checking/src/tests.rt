// The tests of an account: whether it is judged at all.
ghost use Rattle.std.specs.Prelude.{◌≡◌, not, ◌||◌, eqb, length};
ghost use Rattle.sparse.specs.Matrix.{seen};
ghost use Rattle.sparse.specs.Refusals.{refuse, lowest};
ghost use Rattle.sparse.specs.declared.Refusal.TheVariants.{Shape, State};
ghost use Rattle.state.specs.Memory.{memory};
ghost use Rattle.accounts.specs.Account.{account};
ghost use Rattle.accounts.specs.Tests.{broken, account_test};
ghost use Rattle.checking.specs.Rows.{rows_tests};

use adding::inside::short_test;
use sparse::inside::{modulus_test, size_test};
use sparse::{MAX_ENTRIES, Matrix, Refusal, try_from_csr_clean};
use state::multipliers::is_crooked;

// 3 of the answers: one per row.
fn answers_test(nrows: u32, answers: &[u32]) -> Result<(), Refusal>
    ensures { result ≡ refuse (not (eqb (length answers.now) nrows)) Shape }
{
    if answers.len() != nrows as usize {
        return Err(Refusal::Shape);
    }
    Ok(())
}

// 1 and 2 of the rows, 3 of the answers, 1 to 7 of the rows.
fn rows_test(p: u32, matrix: Matrix, answers: &[u32]) -> Result<(), Refusal>
    ensures { result ≡ lowest (rows_tests p (seen matrix.entry) answers.now) }
{
    let Matrix {
        nrows,
        ncols,
        values,
        ..
    } = matrix;
    modulus_test(p)?;
    size_test(MAX_ENTRIES, nrows, ncols, values.len())?;
    answers_test(nrows, answers)?;
    try_from_csr_clean(p, matrix)
}

// Whether slices break 3 or 4. "Pointers less one" is formed only where there is one.
fn is_broken(cols: &[u32], vals: &[u32], ptrs: &[usize]) -> bool
    ensures { result ≡ broken cols.now vals.now ptrs.now }
{
    if cols.len() != vals.len() {
        return true;
    }
    if ptrs.len() == 0 {
        return true;
    }
    is_crooked(ptrs.len() - 1, vals.len(), ptrs)
}

// 13: U's or L's slices break 3 or 4.
fn slices_test(
    u_cols: &[u32],
    u_vals: &[u32],
    u_ptrs: &[usize],
    l_cols: &[u32],
    l_vals: &[u32],
    l_ptrs: &[usize],
) -> Result<(), Refusal>
    ensures { result ≡ refuse (broken u_cols.now u_vals.now u_ptrs.now || broken l_cols.now l_vals.now l_ptrs.now) State }
{
    if is_broken(u_cols, u_vals, u_ptrs) {
        return Err(Refusal::State);
    }
    if is_broken(l_cols, l_vals, l_ptrs) {
        return Err(Refusal::State);
    }
    Ok(())
}

// 1 to 7 of the rows and their answers, 11, and 13.
pub fn account_test(
    p: u32,
    matrix: Matrix,
    answers: &[u32],
    u_cols: &[u32],
    u_vals: &[u32],
    u_ptrs: &[usize],
    l_cols: &[u32],
    l_vals: &[u32],
    l_ptrs: &[usize],
    pivots: &[u32],
    dense: &[u32],
) -> Result<(), Refusal>
    ensures { result ≡ account_test dense.now (account p (seen matrix.entry) answers.now (memory u_cols.now u_vals.now u_ptrs.now l_cols.now l_vals.now l_ptrs.now pivots.now)) }
{
    let Matrix { ncols, .. } = matrix;
    rows_test(p, matrix, answers)?;
    short_test(ncols, dense, pivots)?;
    slices_test(u_cols, u_vals, u_ptrs, l_cols, l_vals, l_ptrs)
}

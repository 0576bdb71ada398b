// The account check.
ghost use Rattle.std.specs.Prelude.{◌≡◌, Ok};
ghost use Rattle.sparse.specs.Lent.{outcome};
ghost use Rattle.sparse.specs.Matrix.{seen};
ghost use Rattle.state.specs.Memory.{memory};
ghost use Rattle.state.specs.State.{u_fault};
ghost use Rattle.steps.specs.History.{at_once};
ghost use Rattle.stepping.specs.Take.{cleared};
ghost use Rattle.accounts.specs.Account.{account, account_fault};
ghost use Rattle.accounts.specs.Tests.{account_test};
ghost use Rattle.judging.specs.Asks.{upper};
ghost use Rattle.checking.specs.Asks.{Whole};
ghost use Rattle.checking.specs.Check.{check_account};

use crate::rows::rows_fault;
use crate::tests::account_test;
use sparse::{Matrix, Refusal};
use state::inside::state_test;
use state::{Counts, Mode};
use walk::kernels::wipe;

// Whether the rows, their answers, U, L and pivots fit together; or the lowest of 1 to 7, 11 and 13 that
// applies, and dense memory as it came. After yes or no it is zero in the column range.
pub fn check_account(
    p: u32,
    matrix: Matrix,
    answers: &[u32],
    u_cols: &[u32],
    u_vals: &[u32],
    u_ptrs: &[usize],
    l_cols: &[u32],
    l_vals: &[u32],
    l_ptrs: &[usize],
    pivots: &[u32],
    dense: &mut [u32],
) -> Result<bool, Refusal>
    ensures { outcome result dense.new ≡ check_account (account p (seen matrix.entry) answers.now (memory u_cols.now u_vals.now u_ptrs.now l_cols.now l_vals.now l_ptrs.now pivots.now)) dense.old }
{
    account_test(
        p, matrix, answers, u_cols, u_vals, u_ptrs, l_cols, l_vals, l_ptrs, pivots, dense,
    )?;
    let fault = account_fault(
        p, matrix, answers, u_cols, u_vals, u_ptrs, l_cols, l_vals, l_ptrs, pivots, dense,
    );
    Ok(!fault)
}

// Whether an account that passes the tests is at fault. Dense memory may hold anything, so it is
// cleared first: only now, for a refusal leaves it.
fn account_fault(
    p: u32,
    matrix: Matrix,
    answers: &[u32],
    u_cols: &[u32],
    u_vals: &[u32],
    u_ptrs: &[usize],
    l_cols: &[u32],
    l_vals: &[u32],
    l_ptrs: &[usize],
    pivots: &[u32],
    dense: &mut [u32],
) -> bool
    requires { account_test dense.old (account p (seen matrix) answers.now (memory u_cols.now u_vals.now u_ptrs.now l_cols.now l_vals.now l_ptrs.now pivots.now)) ≡ Ok tt }
    ensures { outcome result dense.new ≡ outcome (account_fault at_once (account p (seen matrix.entry) answers.now (memory u_cols.now u_vals.now u_ptrs.now l_cols.now l_vals.now l_ptrs.now pivots.now))) (cleared matrix.entry.ncols dense.old) }
{
    let Matrix { ncols, .. } = matrix;
    let front = &mut dense[..ncols as usize];
    wipe(0, front);
    if u_unsound(p, ncols, u_cols, u_vals, u_ptrs, pivots) {
        return true;
    }
    rows_fault(
        p, matrix, answers, u_cols, u_vals, u_ptrs, l_cols, l_vals, l_ptrs, pivots, front,
    )
}

// Whether U, the whole slices, and pivots are no state: the state's own test, of a reducer without L.
fn u_unsound(
    p: u32,
    ncols: u32,
    u_cols: &[u32],
    u_vals: &[u32],
    u_ptrs: &[usize],
    pivots: &[u32],
) -> bool
    requires { Whole p ncols u_cols.now u_vals.now u_ptrs.now pivots.now }
    ensures { result ≡ u_fault p (upper ncols u_cols.now u_vals.now u_ptrs.now) pivots.now }
{
    let counts = Counts {
        mode: Mode::None,
        modulus: p,
        ncols,
        rank: u_ptrs.len() - 1,
        u_fill: u_vals.len(),
        l_rows: 0,
        l_fill: 0,
    };
    let state = state_test(
        counts, u_cols, u_vals, u_ptrs, u_cols, u_vals, u_ptrs, pivots,
    );
    state.is_err()
}

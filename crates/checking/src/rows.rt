// All rows of an account.
ghost use Rattle.std.specs.Prelude.{◌≡◌};
ghost use Rattle.sparse.specs.Lent.{outcome};
ghost use Rattle.sparse.specs.Matrix.{seen};
ghost use Rattle.sparse.specs.Rows.{entries};
ghost use Rattle.state.specs.Memory.{memory};
ghost use Rattle.accounts.specs.Account.{account};
ghost use Rattle.checking.specs.Asks.{Checks, RowChecks};
ghost use Rattle.checking.specs.Rows.{row_wrong, rows_fault};

use judging::rows::judge_row;
use sparse::Matrix;
use stepping::rows::{is_at_once, one_if};
use telling::NONE;

// Whether a row is wrong: by its answer alone where step 1 applies, else with the next L row.
fn row_fault(
    p: u32,
    ncols: u32,
    u_cols: &[u32],
    u_vals: &[u32],
    u_ptrs: &[usize],
    l_cols: &[u32],
    l_vals: &[u32],
    l_ptrs: &[usize],
    earlier: usize,
    used: usize,
    cols: &[u32],
    vals: &[u32],
    answer: u32,
    dense: &mut [u32],
) -> bool
    requires { RowChecks p ncols u_cols.now u_vals.now u_ptrs.now l_cols.now l_vals.now l_ptrs.now earlier cols.now vals.now dense.old }
    ensures { outcome result dense.new ≡ outcome (row_wrong p ncols u_cols.now u_vals.now u_ptrs.now l_cols.now l_vals.now l_ptrs.now earlier used (entries cols.now vals.now) answer) dense.old }
{
    if is_at_once(ncols, earlier, cols.len()) {
        return answer != NONE;
    }
    if l_ptrs.len() - 1 <= used {
        return true;
    }
    let start = l_ptrs[used];
    let stop = l_ptrs[used + 1];
    let l_row = &l_cols[start..stop];
    let factors = &l_vals[start..stop];
    judge_row(
        p, ncols, u_cols, u_vals, u_ptrs, earlier, l_row, factors, cols, vals, answer, dense,
    )
}

// Whether a row is wrong, or U or L has rows left over. Dense memory is zero before and after.
pub fn rows_fault(
    p: u32,
    matrix: Matrix,
    answers: &[u32],
    u_cols: &[u32],
    u_vals: &[u32],
    u_ptrs: &[usize],
    l_cols: &[u32],
    l_vals: &[u32],
    l_ptrs: &[usize],
    pivots: &[u32],
    dense: &mut [u32],
) -> bool
    requires { Checks (account p (seen matrix) answers.now (memory u_cols.now u_vals.now u_ptrs.now l_cols.now l_vals.now l_ptrs.now pivots.now)) dense.old }
    ensures { outcome result dense.new ≡ outcome (rows_fault (account p (seen matrix.entry) answers.now (memory u_cols.now u_vals.now u_ptrs.now l_cols.now l_vals.now l_ptrs.now pivots.now))) dense.old }
{
    let Matrix {
        nrows,
        ncols,
        row_ptrs,
        col_idcs,
        values,
    } = matrix;
    let rank = u_ptrs.len() - 1;
    let mut accepted = 0;
    let mut used = 0;
    for i in 0..nrows as usize {
        let start = row_ptrs[i];
        let stop = row_ptrs[i + 1];
        let answer = answers[i];
        let cols = &col_idcs[start..stop];
        let vals = &values[start..stop];
        let earlier = accepted;
        if row_fault(
            p, ncols, u_cols, u_vals, u_ptrs, l_cols, l_vals, l_ptrs, earlier, used, cols, vals,
            answer, dense,
        ) {
            return true;
        }
        used += one_if(!is_at_once(ncols, earlier, stop - start));
        accepted += one_if(answer != NONE);
    }
    if accepted != rank {
        return true;
    }
    used != l_ptrs.len() - 1
}

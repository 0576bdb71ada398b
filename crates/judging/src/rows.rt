// One row of an account that has an L row.
ghost use Rattle.std.specs.Prelude.{◌≡◌};
ghost use Rattle.sparse.specs.Lent.{outcome};
ghost use Rattle.sparse.specs.Rows.{entries};
ghost use Rattle.accounts.specs.Judgement.{judge_fault};
ghost use Rattle.judging.specs.Asks.{upper, Judges};

use crate::entries::entries_fault;
use crate::products::product_fault;

// Whether a row, its answer and its L row don't fit together. Dense memory is zero before and after.
pub fn judge_row(
    p: u32,
    ncols: u32,
    u_cols: &[u32],
    u_vals: &[u32],
    u_ptrs: &[usize],
    earlier: usize,
    l_cols: &[u32],
    l_vals: &[u32],
    cols: &[u32],
    vals: &[u32],
    answer: u32,
    dense: &mut [u32],
) -> bool
    requires { Judges p ncols u_cols.now u_vals.now u_ptrs.now earlier l_cols.now l_vals.now cols.now vals.now dense.old }
    ensures { outcome result dense.new ≡ outcome (judge_fault p (upper ncols u_cols.now u_vals.now u_ptrs.now) earlier (entries cols.now vals.now) answer (entries l_cols.now l_vals.now)) dense.old }
{
    if entries_fault(
        p, ncols, u_cols, u_vals, u_ptrs, earlier, l_cols, l_vals, answer,
    ) {
        return true;
    }
    product_fault(
        p, ncols, u_cols, u_vals, u_ptrs, l_cols, l_vals, cols, vals, dense,
    )
}

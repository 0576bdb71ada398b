// An L row times U, against the row.
ghost use Rattle.std.specs.Prelude.{◌≡◌, ◌+◌, ◌*◌, ◌%◌, get_or};
ghost use Rattle.lists.specs.Table.{table};
ghost use Rattle.sparse.specs.Lent.{outcome};
ghost use Rattle.sparse.specs.Matrix.{value_at};
ghost use Rattle.sparse.specs.Rows.{entries};
ghost use Rattle.steps.specs.Rows.{times};
ghost use Rattle.accounts.specs.Judgement.{product_fault};
ghost use Rattle.judging.specs.Asks.{upper, AddsRow, Multiplies, Compares};

use walk::kernels::{add_multiple, next, wipe};

// Adds f times a row of U.
fn add_u_row(
    p: u32,
    ncols: u32,
    u_cols: &[u32],
    u_vals: &[u32],
    u_ptrs: &[usize],
    row: usize,
    f: u32,
    dense: &mut [u32],
)
    requires { AddsRow p ncols u_cols.now u_vals.now u_ptrs.now row dense.old }
    ensures { dense.new ≡ table ncols (λ j. (get_or dense.old j 0 + f * value_at (upper ncols u_cols.now u_vals.now u_ptrs.now) row j) % p) }
{
    let start = u_ptrs[row];
    let stop = u_ptrs[row + 1];
    add_multiple(p, f, &u_cols[start..stop], &u_vals[start..stop], dense);
}

// Puts an L row times U into dense memory that is zero.
fn multiply(
    p: u32,
    ncols: u32,
    u_cols: &[u32],
    u_vals: &[u32],
    u_ptrs: &[usize],
    l_cols: &[u32],
    l_vals: &[u32],
    dense: &mut [u32],
)
    requires { Multiplies p ncols u_cols.now u_vals.now u_ptrs.now l_cols.now l_vals.now dense.old }
    ensures { dense.new ≡ table ncols (λ j. times (entries l_cols.now l_vals.now) (value_at (upper ncols u_cols.now u_vals.now u_ptrs.now)) j % p) }
{
    for (&row, &f) in l_cols.iter().zip(l_vals) {
        add_u_row(p, ncols, u_cols, u_vals, u_ptrs, row as usize, f, dense);
    }
}

// Whether an L row times U isn't the row: p - 1 times the row is added, and no column may be left, so
// that the place after the first one left is past the end. Dense memory is zero before and after.
pub fn product_fault(
    p: u32,
    ncols: u32,
    u_cols: &[u32],
    u_vals: &[u32],
    u_ptrs: &[usize],
    l_cols: &[u32],
    l_vals: &[u32],
    cols: &[u32],
    vals: &[u32],
    dense: &mut [u32],
) -> bool
    requires { Compares p ncols u_cols.now u_vals.now u_ptrs.now l_cols.now l_vals.now cols.now vals.now dense.old }
    ensures { outcome result dense.new ≡ outcome (product_fault p (upper ncols u_cols.now u_vals.now u_ptrs.now) (entries l_cols.now l_vals.now) (entries cols.now vals.now)) dense.old }
{
    multiply(p, ncols, u_cols, u_vals, u_ptrs, l_cols, l_vals, dense);
    add_multiple(p, p - 1, cols, vals, dense);
    let after = next(dense, 0) + 1;
    if after > dense.len() {
        return false;
    }
    wipe(0, dense);
    true
}

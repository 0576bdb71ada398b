// The walk up through the columns.
ghost use Rattle.std.specs.Prelude.{◌≡◌, [], length, get_or, None};
ghost use Rattle.walk.specs.Asks.{Clears, Walks};
ghost use Rattle.walk.specs.Dense.{minus_row};
ghost use Rattle.walk.specs.Left.{LeftFrom, limit_of};
ghost use Rattle.walk.specs.Step.{upper, way, climb};

use crate::kernels::{add_multiple, next};
use pivots::inside::MARK;

// Goes up through the columns. At an entry over a pivot, subtracts that multiple of the pivot row
// beyond its head, and so leaves the multiple in its place. Answers the column of the first entry with
// no pivot, where the first walk stops and the second goes on; or the number of columns.
pub fn walk(
    on: bool,
    p: u32,
    u_cols: &[u32],
    u_vals: &[u32],
    u_ptrs: &[usize],
    pivots: &[u32],
    from: usize,
    dense: &mut [u32],
) -> usize
    requires { Walks p u_cols.now u_vals.now u_ptrs.now pivots.now from dense.old }
    ensures { LeftFrom p (length dense.old) (limit_of on (length dense.old) result) (upper u_cols.now u_vals.now u_ptrs.now pivots.now) (climb on p (upper u_cols.now u_vals.now u_ptrs.now pivots.now) (length dense.old) (way (λ j. get_or dense.old j 0) [] None)) from dense.new result }
{
    let mut head = dense.len();
    let mut col = next(dense, from);
    // A while: the column jumps to the next nonzero entry.
    while col < dense.len() {
        let row = pivots[col];
        if row == MARK {
            if !on {
                return col;
            }
            head = head.min(col);
            col = next(dense, col + 1);
            continue;
        }
        subtract_row(p, u_cols, u_vals, u_ptrs, row as usize, col, dense);
        col = next(dense, col + 1);
    }
    head
}

// Subtracts the entry at `col` times a row of U, beyond the row's head.
fn subtract_row(
    p: u32,
    u_cols: &[u32],
    u_vals: &[u32],
    u_ptrs: &[usize],
    row: usize,
    col: usize,
    dense: &mut [u32],
)
    requires { Clears p col u_cols.now u_vals.now u_ptrs.now row dense.old }
    ensures { dense.new ≡ minus_row p col u_cols.now u_vals.now u_ptrs.now row dense.old }
{
    let start = u_ptrs[row] + 1;
    let stop = u_ptrs[row + 1];
    let f = p - dense[col];
    let cols = &u_cols[start..stop];
    let vals = &u_vals[start..stop];
    add_multiple(p, f, cols, vals, dense);
}

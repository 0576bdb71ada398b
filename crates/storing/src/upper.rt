// The new row of U.
ghost use Rattle.std.specs.Prelude.{◌≡◌, length};
ghost use Rattle.walk.specs.Left.{rest_of};
ghost use Rattle.walk.specs.Step.{divided};
ghost use Rattle.storing.specs.Asks.{Heads};
ghost use Rattle.storing.specs.Counted.{stored, stored_row};

use crate::Part;
use crate::gathers::{gather, scale};
use field::inverse::inverse;

// Writes what is left of the row, divided by its head, without zeros: to the free part of U, which is
// lent as such. Answers how many entries that is.
pub fn write_u(
    p: u32,
    pivots: &[u32],
    dense: &[u32],
    limit: usize,
    head: usize,
    u_cols: &mut [u32],
    u_vals: &mut [u32],
) -> usize
    requires { Heads p pivots.now dense.now limit head u_cols.old u_vals.old }
    ensures { stored result u_cols.new u_vals.new ≡ stored_row (divided p (length dense.now) (rest_of pivots.now limit dense.now) head) u_cols.old u_vals.old }
{
    let n = dense.len();
    let len = gather(Part::Column, pivots, dense, limit, head, n, u_cols);
    let f = inverse(p, dense[head]);
    scale(p, f, dense, &u_cols[..len], u_vals);
    len
}

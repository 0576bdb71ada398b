// The product of L's last entries, with its sign.
ghost use Rattle.std.specs.Prelude.{◌≡◌, ◌<◌};
ghost use Rattle.signs.specs.Asks.{Values};
ghost use Rattle.signs.specs.Value.{signed, value_of};

use crate::inversions::inversions;
use crate::lasts::product;
use field::residue::neg;

// The product of the last entries of L's rows, negated where the table of the columns has an odd number
// of inversions.
pub fn value_of(
    p: u32,
    ncols: u32,
    rows: usize,
    l_vals: &[u32],
    l_ptrs: &[usize],
    pivots: &[u32],
) -> u32
    requires { Values p ncols rows l_vals.now l_ptrs.now pivots.now }
    ensures { result ≡ value_of p ncols rows l_vals.now l_ptrs.now pivots.now }
{
    let lasts = product(p, rows, l_ptrs, l_vals);
    let turns = inversions(&pivots[..ncols as usize]);
    with_sign(p, turns, lasts)
}

// A value, negated where the number of inversions is odd.
fn with_sign(p: u32, turns: usize, value: u32) -> u32
    requires { value < p }
    ensures { result ≡ signed p turns value }
{
    if turns % 2 == 1 {
        return neg(p, value);
    }
    value
}

// Loops that gather from dense memory.
ghost use Rattle.std.specs.Prelude.{◌≡◌, ◌<◌, length};
ghost use Rattle.lists.specs.Onto.{◌onto◌};
ghost use Rattle.walk.specs.Left.{over};
ghost use Rattle.storing.specs.Asks.{Gathers, AtColumn, Scales};
ghost use Rattle.storing.specs.Counted.{counted};
ghost use Rattle.storing.specs.Gathers.{gathered, scaled};

use crate::Part;
use field::residue::mul;
use pivots::inside::MARK;

// Writes what stands at the columns from `from` up to `to`, and answers how much that is.
pub fn gather(
    part: Part,
    pivots: &[u32],
    dense: &[u32],
    limit: usize,
    from: usize,
    to: usize,
    out: &mut [u32],
) -> usize
    requires { Gathers part pivots.now dense.now limit from to out.old }
    ensures { counted result out.new ≡ counted (length (gathered part pivots.now dense.now limit to)) (gathered part pivots.now dense.now limit to onto out.old) }
{
    let mut len = 0;
    for col in from..to {
        if is_standing(part, pivots, dense, limit, col) {
            out[len] = telling(part, pivots, dense, col);
            len += 1;
        }
    }
    len
}

fn is_standing(part: Part, pivots: &[u32], dense: &[u32], limit: usize, col: usize) -> bool
    requires { AtColumn pivots.now dense.now col }
    ensures { result ≡ Rattle.storing.specs.Gathers.stands part pivots.now dense.now limit col }
{
    if dense[col] == 0 {
        return false;
    }
    let pivoted = is_over(pivots, limit, col);
    match part {
        Part::Row => pivoted,
        Part::Multiple => pivoted,
        Part::Column => !pivoted,
    }
}

// Whether the column is below the limit, over a pivot.
fn is_over(pivots: &[u32], limit: usize, col: usize) -> bool
    requires { col < length pivots.now }
    ensures { result ≡ over pivots.now limit col }
{
    if col >= limit {
        return false;
    }
    pivots[col] != MARK
}

fn telling(part: Part, pivots: &[u32], dense: &[u32], col: usize) -> u32
    requires { AtColumn pivots.now dense.now col }
    ensures { result ≡ Rattle.storing.specs.Gathers.told part pivots.now dense.now col }
{
    match part {
        Part::Row => pivots[col],
        Part::Multiple => dense[col],
        Part::Column => col as u32,
    }
}

// Writes f times the entries at some columns, modulo p.
pub fn scale(p: u32, f: u32, dense: &[u32], cols: &[u32], out: &mut [u32])
    requires { Scales p f dense.now cols.now out.old }
    ensures { out.new ≡ scaled p f dense.now cols.now onto out.old }
{
    for (k, col) in cols.iter().enumerate() {
        out[k] = mul(p, dense[*col as usize], f);
    }
}

// The product of L's last entries.
ghost use Rattle.std.specs.Prelude.{◌≡◌};
ghost use Rattle.signs.specs.Asks.{Multiplies};
ghost use Rattle.signs.specs.Value;

use field::residue::mul;

// The product of the last entries of the first rows, modulo p.
pub fn product(p: u32, rows: usize, ptrs: &[usize], vals: &[u32]) -> u32
    requires { Multiplies p rows ptrs.now vals.now }
    ensures { result ≡ Value.product p ptrs.now vals.now rows }
{
    let mut value = 1;
    for row in 0..rows {
        let start = ptrs[row];
        let end = ptrs[row + 1];
        value = mul(p, value, last_of(&vals[start..end]));
    }
    value
}

// The last of some numbers; 0 where there is none.
fn last_of(numbers: &[u32]) -> u32
    ensures { result ≡ Value.last_of numbers.now }
{
    numbers.last().copied().unwrap_or(0)
}

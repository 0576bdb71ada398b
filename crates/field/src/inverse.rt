// The inverse by Euclid's remainders, each smaller than the last.
ghost use Rattle.std.specs.Prelude.{◌≡◌};
ghost use Rattle.field.specs.Inverse.{inverse as inverse_of, Invertible};

// The residue r such that a * r leaves 1 modulo p. Extended Euclid on (p, a): the pair (a, p % a) has
// an answer y below a with p * y = 1 + a * k, so a * (p - k) = 1 + p * (a - y).
pub fn inverse(p: u32, a: u32) -> u32
    requires { Invertible p a }
    ensures { result ≡ inverse_of p a }
{
    if a == 1 {
        return 1;
    }
    let y = inverse(a, p % a);
    let multiple = p as u64 * y as u64 - 1;
    p - (multiple / a as u64) as u32
}

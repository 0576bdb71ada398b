// Which moduli are taken: the primes in 2..2,147,483,647.
ghost use Rattle.std.specs.Prelude.{◌≡◌};
ghost use Rattle.field.specs.Prime.{is_prime, is_modulus};
ghost use Rattle.field.specs.Asks.{Odd};

// The largest modulus, 2^31 - 1.
pub const LARGEST: u32 = 2147483647;

// Whether p is a prime in 2..2,147,483,647. The largest is the one most in use and the dearest to
// test, so it is answered at once: that it is a prime was computed with the proof.
pub fn is_modulus(p: u32) -> bool
    ensures { result ≡ is_modulus p }
{
    if p == LARGEST {
        return true;
    }
    if p > LARGEST {
        return false;
    }
    if p < 2 {
        return false;
    }
    if p % 2 == 0 {
        return p == 2;
    }
    is_odd_prime(p)
}

// Whether the odd number n is a prime: one division for each odd number up to its square root.
fn is_odd_prime(n: u32) -> bool
    requires { Odd n }
    ensures { result ≡ is_prime n }
{
    let mut d = 3;
    // A loop: only a quotient ends it, and after a `for` an answer would be owed that is never given.
    loop {
        let q = n / d;
        if q < d {
            return true;
        }
        if q * d == n {
            return false;
        }
        d += 2;
    }
}

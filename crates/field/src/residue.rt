// The operations on residues modulo p. None forms a sum past 32 bits or a product past 64.
ghost use Rattle.std.specs.Prelude.{◌≡◌, ◌+◌, ◌-◌, ◌*◌, ◌%◌, ◌<◌};
ghost use Rattle.field.specs.Asks.{Residues};

// a + b modulo p.
pub fn add(p: u32, a: u32, b: u32) -> u32
    requires { Residues p a b }
    ensures { result ≡ (a + b) % p }
{
    let room = p - b;
    if a < room { a + b } else { a - room }
}

// a - b modulo p.
pub fn sub(p: u32, a: u32, b: u32) -> u32
    requires { Residues p a b }
    ensures { result ≡ (a + (p - b)) % p }
{
    if b <= a { a - b } else { a + (p - b) }
}

// -a modulo p.
pub fn neg(p: u32, a: u32) -> u32
    requires { a < p }
    ensures { result ≡ (p - a) % p }
{
    if a == 0 { 0 } else { p - a }
}

// a * b modulo p.
pub fn mul(p: u32, a: u32, b: u32) -> u32
    requires { Residues p a b }
    ensures { result ≡ (a * b) % p }
{
    let product = a as u64 * b as u64;
    (product % p as u64) as u32
}

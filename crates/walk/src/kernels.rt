// Loops over dense memory.
ghost use Rattle.std.specs.Prelude.{◌≡◌, ◌+◌, ◌*◌, ◌%◌, ◌≤◌, ◌<◌, length};
ghost use Rattle.walk.specs.Asks.{Loads, Adds};
ghost use Rattle.walk.specs.Dense.{next_from, plus_multiple, spread, wiped};

// The next nonzero column from `col`; the length where there is none.
pub fn next(dense: &[u32], col: usize) -> usize
    requires { col ≤ length dense.now }
    ensures { result ≡ next_from dense.now col }
{
    for at in col..dense.len() {
        if dense[at] != 0 {
            return at;
        }
    }
    dense.len()
}

// Puts a row into dense memory that is zero.
pub fn load(cols: &[u32], vals: &[u32], dense: &mut [u32])
    requires { Loads (length dense.old) cols.now vals.now dense.old }
    ensures { dense.new ≡ spread (length dense.old) cols.now vals.now }
{
    for (col, val) in cols.iter().zip(vals) {
        dense[*col as usize] = *val;
    }
}

// Clears dense memory from a column on.
pub fn wipe(from: usize, dense: &mut [u32])
    ensures { dense.new ≡ wiped from dense.old }
{
    let from = from.min(dense.len());
    dense[from..].fill(0);
}

// Adds f times a row, modulo p.
pub fn add_multiple(p: u32, f: u32, cols: &[u32], vals: &[u32], dense: &mut [u32])
    requires { Adds p cols.now vals.now dense.old }
    ensures { dense.new ≡ plus_multiple p f cols.now vals.now dense.old }
{
    for (col, val) in cols.iter().zip(vals) {
        let col = *col as usize;
        dense[col] = plus(p, dense[col], f, *val);
    }
}

// a + f times b, modulo p. One product and one number fit 64 bits, whatever they are.
fn plus(p: u32, a: u32, f: u32, b: u32) -> u32
    requires { 0 < p }
    ensures { result ≡ (a + f * b) % p }
{
    let sum = a as u64 + f as u64 * b as u64;
    (sum % p as u64) as u32
}

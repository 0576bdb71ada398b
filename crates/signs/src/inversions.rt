// The sign: inversions of the pivot table.
ghost use Rattle.std.specs.Prelude.{◌≡◌, ◌≤◌, length};
ghost use Rattle.signs.specs.Asks.{PlaceOf};
ghost use Rattle.signs.specs.Value;

// How many pairs of places have the greater number first.
pub fn inversions(table: &[u32]) -> usize
    requires { length table.now ≤ 1024 }
    ensures { result ≡ Value.inversions table.now }
{
    let mut sum = 0;
    for place in 0..table.len() {
        sum += inverted(table, place);
    }
    sum
}

// How many numbers before a place are greater than the one there.
fn inverted(table: &[u32], place: usize) -> usize
    requires { PlaceOf table.now place }
    ensures { result ≡ Value.inverted table.now place }
{
    let here = table[place];
    let mut many = 0;
    // A loop: `filter` and `count` take over twice the instructions.
    for before in &table[..place] {
        if here < *before {
            many += 1;
        }
    }
    many
}

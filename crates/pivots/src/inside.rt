// The tests of a pivot table, for the calls that are lent one.
ghost use Rattle.std.specs.Prelude.{◌≡◌, not, leb, eqb, length, get_or};
ghost use Rattle.lists.specs.Find.{any, count};
ghost use Rattle.pivots.specs.Tables.{table_test};
ghost use Rattle.sparse.specs.Matrix.{seen};
ghost use Rattle.sparse.specs.Pivots.{named, pivots_test};
ghost use Rattle.sparse.specs.Tests.{size_test};

use sparse::inside::{matrix_test, modulus_test, size_test};
use sparse::{MAX_ENTRIES, MAX_SIDE, Matrix, Refusal};

// A column without a pivot.
pub const MARK: u32 = 4294967295;

// 1 to 6 of the matrix, 2 of the table's length, and 12.
pub fn table_test(p: u32, matrix: Matrix, pivots: &[u32]) -> Result<(), Refusal>
    ensures { result ≡ table_test p (seen matrix.entry) pivots.now }
{
    let Matrix {
        nrows,
        ncols,
        values,
        ..
    } = matrix;
    modulus_test(p)?;
    size_test(MAX_ENTRIES, nrows, ncols, values.len())?;
    length_test(pivots.len())?;
    matrix_test(p, matrix)?;
    pivots_test(nrows, pivots)
}

// 12 of a pivot table: it names each row exactly once, and nothing else.
pub fn pivots_test(nrows: u32, pivots: &[u32]) -> Result<(), Refusal>
    ensures { result ≡ pivots_test nrows pivots.now }
{
    if names_other(nrows, pivots) {
        return Err(Refusal::Positions);
    }
    if misses_row(nrows, pivots) {
        return Err(Refusal::Positions);
    }
    Ok(())
}

// Whether the table names something that is no row.
fn names_other(nrows: u32, pivots: &[u32]) -> bool
    ensures { result ≡ any (length (named pivots.now)) (λ k. leb nrows (get_or (named pivots.now) k 0)) }
{
    pivots.iter().any(|row| *row != MARK && *row >= nrows)
}

// How often the table names a row.
fn times_named(pivots: &[u32], row: u32) -> usize
    ensures { result ≡ count (eqb row) pivots.now }
{
    let mut times = 0;
    // A loop: `filter` and `count` take over twice the instructions.
    for named in pivots {
        if row == *named {
            times += 1;
        }
    }
    times
}

// Whether the table names some row not exactly once. No row has the mark's number, so counting in
// the whole table is counting what it names.
fn misses_row(nrows: u32, pivots: &[u32]) -> bool
    ensures { result ≡ any nrows (λ i. not (eqb (count (eqb i) (named pivots.now)) 1)) }
{
    for row in 0..nrows {
        if times_named(pivots, row) != 1 {
            return true;
        }
    }
    false
}

// 2 of the length of a pivot table.
pub fn length_test(len: usize) -> Result<(), Refusal>
    ensures { result ≡ size_test 65536 0 len 0 }
{
    if len > MAX_SIDE as usize {
        return Err(Refusal::Size);
    }
    Ok(())
}

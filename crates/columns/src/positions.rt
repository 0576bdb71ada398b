// Inserting columns in place: position q puts a new column before old column q.
ghost use Rattle.std.specs.Prelude.{◌≡◌, map, ◌+◌, ◌≤◌, ◌<◌, leb, length};
ghost use Rattle.lists.specs.Find.{count};
ghost use Rattle.sparse.specs.Lent.{outcome};
ghost use Rattle.sparse.specs.Matrix.{matrix, seen};
ghost use Rattle.sparse.specs.Tests.{size_test};
ghost use Rattle.columns.specs.Asks.{NotFalling, Movable};
ghost use Rattle.columns.specs.Positions.{position_test, positions_test, moved, add_cols_test, add_cols};

use sparse::inside::{matrix_test, modulus_test, size_test};
use sparse::{MAX_ENTRIES, MAX_SIDE, Matrix, Refusal};

// Moves the stored columns in place, and answers the new column count; or the lowest of 1 to 6 and
// 12 that applies, and the columns as they came. The five parts stand alone here: the slices of a `Matrix` are
// shared, and the columns are changed.
pub fn add_cols(
    p: u32,
    nrows: u32,
    ncols: u32,
    row_ptrs: &[usize],
    col_idcs: &mut [u32],
    values: &[u32],
    positions: &[u32],
) -> Result<u32, Refusal>
    ensures { outcome result col_idcs.new ≡ add_cols p (matrix nrows ncols row_ptrs.now col_idcs.old values.now) positions.now }
{
    add_cols_test(
        p,
        Matrix {
            nrows,
            ncols,
            row_ptrs,
            col_idcs,
            values,
        },
        positions,
    )?;
    move_columns(positions, col_idcs);
    Ok(ncols + positions.len() as u32)
}

// 1 to 6, 2 for the widened matrix too, and 12.
fn add_cols_test(p: u32, matrix: Matrix, positions: &[u32]) -> Result<(), Refusal>
    ensures { result ≡ add_cols_test p (seen matrix.entry) positions.now }
{
    let Matrix {
        nrows,
        ncols,
        values,
        ..
    } = matrix;
    modulus_test(p)?;
    size_test(MAX_ENTRIES, nrows, ncols, values.len())?;
    wider_test(nrows, ncols, values.len(), positions.len())?;
    matrix_test(p, matrix)?;
    positions_test(ncols, positions)
}

// 2 with so many more columns. Their number may be as long as a slice: the sum waits for its limit.
pub fn wider_test(nrows: u32, ncols: u32, entries: usize, more: usize) -> Result<(), Refusal>
    requires { ncols ≤ 1024 }
    ensures { result ≡ size_test 65536 nrows (ncols + more) entries }
{
    if more > MAX_SIDE as usize {
        return Err(Refusal::Size);
    }
    size_test(MAX_ENTRIES, nrows, ncols + more as u32, entries)
}

// 12 at position k: not above the column count, and in order with the one before.
fn position_test(ncols: u32, positions: &[u32], k: usize) -> Result<(), Refusal>
    requires { k < length positions.now }
    ensures { result ≡ position_test ncols positions.now k }
{
    let position = positions[k];
    if position > ncols {
        return Err(Refusal::Positions);
    }
    if k == 0 {
        return Ok(());
    }
    if position <= positions[k - 1] {
        return Err(Refusal::Positions);
    }
    Ok(())
}

// 12 of all positions.
pub fn positions_test(ncols: u32, positions: &[u32]) -> Result<(), Refusal>
    ensures { result ≡ positions_test ncols positions.now }
{
    for k in 0..positions.len() {
        position_test(ncols, positions, k)?;
    }
    Ok(())
}

// How many positions are not above a column, by binary search.
pub fn not_above(positions: &[u32], col: u32) -> usize
    requires { NotFalling positions.now }
    ensures { result ≡ count (λ q. leb q col) positions.now }
{
    positions.partition_point(|position| *position <= col)
}

// Moves each column up by the number of positions not above it.
pub fn move_columns(positions: &[u32], cols: &mut [u32])
    requires { Movable positions.now cols.old }
    ensures { cols.new ≡ map (moved positions.now) cols.old }
{
    for col in cols.iter_mut() {
        let up = not_above(positions, *col);
        *col += up as u32;
    }
}

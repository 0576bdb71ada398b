// The tests clause by clause, for the public calls of this crate and of those above. Each finds the
// first entry of the first row at which its clause holds; nothing else makes a refusal.
ghost use Rattle.std.specs.Prelude.{◌≡◌, ◌≤◌, ◌<◌, length};
ghost use Rattle.lists.specs.Onto.{◌onto◌};
ghost use Rattle.sparse.specs.Asks.{Pointers, Cut};
ghost use Rattle.sparse.specs.Lent.{lent, room_test};
ghost use Rattle.sparse.specs.Matrix.{seen};
ghost use Rattle.sparse.specs.Tests.{modulus_test, size_test, shape_test, column_test, columns_test, row_test, rows_test, value_test, values_test, rows_values_test, matrix_test, well_formed, clean};

use crate::{MAX_SIDE, Matrix, Refusal};
use field::prime::is_modulus;

// What 6 and 7 ask of a value.
#[derive(Clone, Copy)]
pub enum Clause {
    Residue,
    Nonzero,
}

// 1: the modulus is a prime in 2..2,147,483,647.
pub fn modulus_test(p: u32) -> Result<(), Refusal>
    ensures { result ≡ modulus_test p }
{
    if is_modulus(p) {
        return Ok(());
    }
    Err(Refusal::Modulus)
}

// 2: at most 1,024 rows and columns, and at most `limit` entries.
pub fn size_test(limit: usize, nrows: u32, ncols: u32, entries: usize) -> Result<(), Refusal>
    ensures { result ≡ size_test limit nrows ncols entries }
{
    if nrows > MAX_SIDE {
        return Err(Refusal::Size);
    }
    if ncols > MAX_SIDE {
        return Err(Refusal::Size);
    }
    if entries > limit {
        return Err(Refusal::Size);
    }
    Ok(())
}

// 3: as many columns as values; a pointer for each row and one more, from 0 to the value count.
pub fn shape_test(matrix: Matrix) -> Result<(), Refusal>
    requires { matrix.nrows ≤ 1024 }
    ensures { result ≡ shape_test (seen matrix.entry) }
{
    let Matrix {
        nrows,
        row_ptrs,
        col_idcs,
        values,
        ..
    } = matrix;
    if col_idcs.len() != values.len() {
        return Err(Refusal::Shape);
    }
    let pointers = nrows + 1;
    if row_ptrs.len() != pointers as usize {
        return Err(Refusal::Shape);
    }
    if row_ptrs[0] != 0 {
        return Err(Refusal::Shape);
    }
    if row_ptrs[nrows as usize] != values.len() {
        return Err(Refusal::Shape);
    }
    Ok(())
}

// 5 at entry k of a row: its column is below the column count and above the one before.
fn column_test(ncols: u32, cols: &[u32], k: usize) -> Result<(), Refusal>
    requires { k < length cols.now }
    ensures { result ≡ column_test ncols cols.now k }
{
    let col = cols[k];
    if col >= ncols {
        return Err(Refusal::Column);
    }
    if k == 0 {
        return Ok(());
    }
    if col <= cols[k - 1] {
        return Err(Refusal::Column);
    }
    Ok(())
}

// 5 in a row.
pub fn columns_test(ncols: u32, cols: &[u32]) -> Result<(), Refusal>
    ensures { result ≡ columns_test ncols cols.now }
{
    for k in 0..cols.len() {
        column_test(ncols, cols, k)?;
    }
    Ok(())
}

// 4, then 5, in the row from `start` up to `stop`.
fn row_test(ncols: u32, col_idcs: &[u32], start: usize, stop: usize) -> Result<(), Refusal>
    ensures { result ≡ row_test ncols col_idcs.now start stop }
{
    if stop < start {
        return Err(Refusal::Pointer);
    }
    if col_idcs.len() < stop {
        return Err(Refusal::Pointer);
    }
    columns_test(ncols, &col_idcs[start..stop])
}

// 4 and 5: the first bad row decides.
pub fn rows_test(
    nrows: u32,
    ncols: u32,
    row_ptrs: &[usize],
    col_idcs: &[u32],
) -> Result<(), Refusal>
    requires { Pointers nrows row_ptrs.now }
    ensures { result ≡ rows_test nrows ncols row_ptrs.now col_idcs.now }
{
    for i in 0..nrows as usize {
        row_test(ncols, col_idcs, row_ptrs[i], row_ptrs[i + 1])?;
    }
    Ok(())
}

// 6 or 7 of one value.
fn value_test(clause: Clause, p: u32, value: u32) -> Result<(), Refusal>
    ensures { result ≡ value_test clause p value }
{
    match clause {
        Clause::Residue => {
            if value >= p {
                return Err(Refusal::Value);
            }
            Ok(())
        }
        Clause::Nonzero => {
            if value == 0 {
                return Err(Refusal::Zero);
            }
            Ok(())
        }
    }
}

// 6 or 7 in a row, a vector or the values of triplets.
pub fn values_test(clause: Clause, p: u32, values: &[u32]) -> Result<(), Refusal>
    ensures { result ≡ values_test clause p values.now }
{
    for value in values {
        value_test(clause, p, *value)?;
    }
    Ok(())
}

// 6 or 7 in a matrix, row by row.
pub fn rows_values_test(
    clause: Clause,
    p: u32,
    nrows: u32,
    row_ptrs: &[usize],
    values: &[u32],
) -> Result<(), Refusal>
    requires { Cut nrows (length values.now) row_ptrs.now }
    ensures { result ≡ rows_values_test clause p nrows row_ptrs.now values.now }
{
    for i in 0..nrows as usize {
        let start = row_ptrs[i];
        let stop = row_ptrs[i + 1];
        values_test(clause, p, &values[start..stop])?;
    }
    Ok(())
}

// 3 to 6.
pub fn matrix_test(p: u32, matrix: Matrix) -> Result<(), Refusal>
    requires { matrix.nrows ≤ 1024 }
    ensures { result ≡ matrix_test p (seen matrix.entry) }
{
    let Matrix {
        nrows,
        ncols,
        row_ptrs,
        col_idcs,
        values,
    } = matrix;
    shape_test(matrix)?;
    rows_test(nrows, ncols, row_ptrs, col_idcs)?;
    rows_values_test(Clause::Residue, p, nrows, row_ptrs, values)
}

// 1 to 6, with at most `limit` entries.
pub fn well_formed(limit: usize, p: u32, matrix: Matrix) -> Result<(), Refusal>
    ensures { result ≡ well_formed limit p (seen matrix.entry) }
{
    let Matrix {
        nrows,
        ncols,
        values,
        ..
    } = matrix;
    modulus_test(p)?;
    size_test(limit, nrows, ncols, values.len())?;
    matrix_test(p, matrix)
}

// 1 to 7, with at most `limit` entries.
pub fn clean_rows(limit: usize, p: u32, matrix: Matrix) -> Result<(), Refusal>
    ensures { result ≡ clean limit p (seen matrix.entry) }
{
    let Matrix {
        nrows,
        row_ptrs,
        values,
        ..
    } = matrix;
    well_formed(limit, p, matrix)?;
    rows_values_test(Clause::Nonzero, p, nrows, row_ptrs, values)
}

// 14: room for a pointer for each row and one more, and for the entries.
pub fn room_test(
    nrows: u32,
    entries: usize,
    row_ptrs: &[usize],
    col_idcs: &[u32],
    values: &[u32],
) -> Result<(), Refusal>
    ensures { result ≡ room_test nrows entries (lent row_ptrs.now col_idcs.now values.now) }
{
    if row_ptrs.len() <= nrows as usize {
        return Err(Refusal::Room);
    }
    if col_idcs.len() < entries {
        return Err(Refusal::Room);
    }
    if values.len() < entries {
        return Err(Refusal::Room);
    }
    Ok(())
}

// Copies src to the front of dst.
pub fn copy(src: &[u32], dst: &mut [u32])
    requires { length src.now ≤ length dst.old }
    ensures { dst.new ≡ src.now onto dst.old }
{
    // A loop: rows are short, and `copy_from_slice` calls out for each.
    for (i, value) in src.iter().enumerate() {
        dst[i] = *value;
    }
}

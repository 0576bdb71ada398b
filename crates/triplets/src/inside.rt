// The tests of triplets, and a writer that asks that they have passed.
ghost use Rattle.std.specs.Prelude.{◌≡◌, ◌+◌};
ghost use Rattle.lists.specs.Onto.{◌onto◌};
ghost use Rattle.lists.specs.Table.{table};
ghost use Rattle.triplets.specs.Asks.{Parts, PartsAt, RowStart, Pointable, Writable};
ghost use Rattle.sparse.specs.Lent.{lent};
ghost use Rattle.triplets.specs.Triplets.{triplet, triplets, parts_test, place_test, places_test, step_test, order_test, start_of, written, triplets_test};

use sparse::inside::{Clause, copy, modulus_test, size_test, values_test};
use sparse::{MAX_ENTRIES, Refusal};

// 1, 2, 3, 6, 8 and 9 of triplets.
pub fn triplets_test(
    p: u32,
    nrows: u32,
    ncols: u32,
    rows: &[u32],
    cols: &[u32],
    vals: &[u32],
) -> Result<(), Refusal>
    ensures { result ≡ triplets_test p nrows ncols rows.now cols.now vals.now }
{
    modulus_test(p)?;
    size_test(MAX_ENTRIES, nrows, ncols, vals.len())?;
    parts_test(rows, cols, vals)?;
    values_test(Clause::Residue, p, vals)?;
    places_test(nrows, ncols, rows, cols, vals)?;
    order_test(rows, cols, vals)
}

// 3: as many rows and columns as values.
fn parts_test(rows: &[u32], cols: &[u32], vals: &[u32]) -> Result<(), Refusal>
    ensures { result ≡ parts_test rows.now cols.now vals.now }
{
    if rows.len() != vals.len() {
        return Err(Refusal::Shape);
    }
    if cols.len() != vals.len() {
        return Err(Refusal::Shape);
    }
    Ok(())
}

// 8 of one triplet.
fn place_test(nrows: u32, ncols: u32, row: u32, col: u32, val: u32) -> Result<(), Refusal>
    ensures { result ≡ place_test nrows ncols (triplet row col val) }
{
    if row >= nrows {
        return Err(Refusal::Outside);
    }
    if col >= ncols {
        return Err(Refusal::Outside);
    }
    Ok(())
}

// 8 of all.
fn places_test(
    nrows: u32,
    ncols: u32,
    rows: &[u32],
    cols: &[u32],
    vals: &[u32],
) -> Result<(), Refusal>
    requires { Parts rows.now cols.now vals.now }
    ensures { result ≡ places_test nrows ncols (triplets rows.now cols.now vals.now) }
{
    for k in 0..vals.len() {
        place_test(nrows, ncols, rows[k], cols[k], vals[k])?;
    }
    Ok(())
}

// 9 at triplet k: it stands after the one before it by (row, column).
fn step_test(rows: &[u32], cols: &[u32], vals: &[u32], k: usize) -> Result<(), Refusal>
    requires { PartsAt rows.now cols.now vals.now k }
    ensures { result ≡ step_test (triplets rows.now cols.now vals.now) k }
{
    if k == 0 {
        return Ok(());
    }
    let last = k - 1;
    if rows[last] < rows[k] {
        return Ok(());
    }
    if rows[last] > rows[k] {
        return Err(Refusal::Order);
    }
    if cols[last] < cols[k] {
        return Ok(());
    }
    Err(Refusal::Order)
}

// 9 of all.
fn order_test(rows: &[u32], cols: &[u32], vals: &[u32]) -> Result<(), Refusal>
    requires { Parts rows.now cols.now vals.now }
    ensures { result ≡ order_test (triplets rows.now cols.now vals.now) }
{
    for k in 0..vals.len() {
        step_test(rows, cols, vals, k)?;
    }
    Ok(())
}

// Writes ordered triplets to the front of the lent memory.
pub fn write_triplets(
    nrows: u32,
    rows: &[u32],
    cols: &[u32],
    vals: &[u32],
    row_ptrs: &mut [usize],
    col_idcs: &mut [u32],
    values: &mut [u32],
)
    requires { Writable nrows rows.now cols.now vals.now (lent row_ptrs.old col_idcs.old values.old) }
    ensures { lent row_ptrs.new col_idcs.new values.new ≡ written nrows (triplets rows.now cols.now vals.now) (lent row_ptrs.old col_idcs.old values.old) }
{
    write_pointers(nrows, rows, row_ptrs);
    copy(cols, col_idcs);
    copy(vals, values);
}

// Writes where each row starts, and where the last one ends.
fn write_pointers(nrows: u32, rows: &[u32], row_ptrs: &mut [usize])
    requires { Pointable nrows rows.now row_ptrs.old }
    ensures { row_ptrs.new ≡ table (nrows + 1) (start_of rows.now) onto row_ptrs.old }
{
    row_ptrs[0] = 0;
    let mut start = 0;
    for row in 0..nrows {
        start = row_end(rows, start, row);
        row_ptrs[row as usize + 1] = start;
    }
}

// Where the row that starts at `start` ends.
fn row_end(rows: &[u32], start: usize, row: u32) -> usize
    requires { RowStart rows.now row start }
    ensures { result ≡ start_of rows.now (row + 1) }
{
    // Behind the last triplet no loop is begun: many rows may stand there.
    if start == rows.len() {
        return start;
    }
    for stop in start..rows.len() {
        if rows[stop] > row {
            return stop;
        }
    }
    rows.len()
}

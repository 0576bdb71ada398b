// Gathering the last column: each index of the vector has a source, a row or nothing.
ghost use Rattle.std.specs.Prelude.{◌≡◌, ℕ, ◌≤◌, ◌<◌, length, Ok};
ghost use Rattle.sparse.specs.Lent.{lent_vector, outcome};
ghost use Rattle.sparse.specs.Matrix.{seen};
ghost use Rattle.sparse.specs.Put.{putting_vector};
ghost use Rattle.sparse.specs.Rows.{entries};
ghost use Rattle.readers.specs.Asks.{Climbing};
ghost use Rattle.lasts.specs.Asks.{Sourced, At, Room};
ghost use Rattle.lasts.specs.Gathers.{size_of, source_of, taken_at, gathered, held, put_entries};
ghost use Rattle.lasts.specs.Lasts.{in_last};

use pivots::inside::MARK;
use readers::inside::vector_room_test;
use sparse::{Matrix, Refusal};

// What the vector is indexed by: rows, rows from the last up, or pivot columns.
#[derive(Clone, Copy)]
pub enum Order {
    ByRow,
    Reversed,
    ByPivot,
}

// The last column in an order, written to lent memory; or 14, decided before anything is written.
pub fn gather(
    order: Order,
    matrix: Matrix,
    pivots: &[u32],
    out_idcs: &mut [u32],
    out_vals: &mut [u32],
) -> Result<usize, Refusal>
    requires { Sourced order (seen matrix) pivots.now }
    ensures { outcome result (lent_vector out_idcs.new out_vals.new) ≡ putting_vector (Ok tt) (gathered order (seen matrix.entry) pivots.now) (lent_vector out_idcs.old out_vals.old) }
{
    let entries = count_last(order, matrix, pivots);
    vector_room_test(entries, out_idcs, out_vals)?;
    write_last(order, matrix, pivots, out_idcs, out_vals);
    Ok(entries)
}

// How long the vector is.
fn indices(order: Order, nrows: u32, pivots: &[u32]) -> u32
    requires { size_of order nrows pivots.now ≤ 1024 }
    ensures { result ≡ size_of order nrows pivots.now }
{
    match order {
        Order::ByRow => nrows,
        Order::Reversed => nrows,
        Order::ByPivot => pivots.len() as u32,
    }
}

// The row that is read for index k, or the mark.
fn source(order: Order, nrows: u32, pivots: &[u32], k: u32) -> u32
    requires { k < size_of order nrows pivots.now }
    ensures { result ≡ source_of order nrows pivots.now k }
{
    match order {
        Order::ByRow => k,
        Order::Reversed => nrows - 1 - k,
        Order::ByPivot => pivots[k as usize],
    }
}

// The value of a row in the last column: columns climb, so it is the row's last.
fn last_in(ncols: u32, cols: &[u32], vals: &[u32]) -> Option<u32>
    requires { Climbing ncols cols.now vals.now }
    ensures { (k : ℕ) → held result k ≡ in_last ncols (entries cols.now vals.now) k }
{
    if cols.len() == 0 {
        return None;
    }
    let end = cols.len() - 1;
    if cols[end] + 1 != ncols {
        return None;
    }
    Some(vals[end])
}

// What goes to index k.
fn last_at(order: Order, matrix: Matrix, pivots: &[u32], k: u32) -> Option<u32>
    requires { At order (seen matrix) pivots.now k }
    ensures { held result k ≡ taken_at order (seen matrix.entry) pivots.now k }
{
    let Matrix {
        nrows,
        ncols,
        row_ptrs,
        col_idcs,
        values,
    } = matrix;
    let row = source(order, nrows, pivots, k);
    if row == MARK {
        return None;
    }
    let start = row_ptrs[row as usize];
    let stop = row_ptrs[row as usize + 1];
    last_in(ncols, &col_idcs[start..stop], &values[start..stop])
}

// How many entries the vector has.
fn count_last(order: Order, matrix: Matrix, pivots: &[u32]) -> usize
    requires { Sourced order (seen matrix) pivots.now }
    ensures { result ≡ length (gathered order (seen matrix.entry) pivots.now) }
{
    let Matrix { nrows, .. } = matrix;
    let size = indices(order, nrows, pivots);
    let mut found = 0;
    for k in 0..size {
        let last = last_at(order, matrix, pivots, k);
        if let Some(_) = last {
            found += 1;
        }
    }
    found
}

// Writes the entries, one after the other.
fn write_last(
    order: Order,
    matrix: Matrix,
    pivots: &[u32],
    out_idcs: &mut [u32],
    out_vals: &mut [u32],
)
    requires { Room order (seen matrix) pivots.now (lent_vector out_idcs.old out_vals.old) }
    ensures { lent_vector out_idcs.new out_vals.new ≡ put_entries (gathered order (seen matrix.entry) pivots.now) (lent_vector out_idcs.old out_vals.old) }
{
    let Matrix { nrows, .. } = matrix;
    let size = indices(order, nrows, pivots);
    let mut at = 0;
    for k in 0..size {
        let last = last_at(order, matrix, pivots, k);
        if let Some(value) = last {
            out_idcs[at] = k;
            out_vals[at] = value;
            at += 1;
        }
    }
}

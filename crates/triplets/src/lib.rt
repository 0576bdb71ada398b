// Building a matrix from ordered triplets.
#![tactic(auto)]

ghost use Rattle.std.specs.Prelude.{◌≡◌};
ghost use Rattle.sparse.specs.Lent.{lent, outcome};
ghost use Rattle.triplets.specs.Triplets.{from_triplets};

pub mod inside;

use inside::{triplets_test, write_triplets};
use sparse::Refusal;
use sparse::inside::room_test;

// The matrix whose entries are the triplets, stored zeros kept, at the front of the lent memory; or
// the lowest of 1, 2, 3, 6, 8, 9 and 14 that applies, and the memory as it came. The parts stand alone
// here: the slices of a `Matrix` are shared, and these three are written.
pub fn from_triplets(
    p: u32,
    nrows: u32,
    ncols: u32,
    rows: &[u32],
    cols: &[u32],
    vals: &[u32],
    row_ptrs: &mut [usize],
    col_idcs: &mut [u32],
    values: &mut [u32],
) -> Result<usize, Refusal>
    ensures { outcome result (lent row_ptrs.new col_idcs.new values.new) ≡ from_triplets p nrows ncols rows.now cols.now vals.now (lent row_ptrs.old col_idcs.old values.old) }
{
    triplets_test(p, nrows, ncols, rows, cols, vals)?;
    room_test(nrows, vals.len(), row_ptrs, col_idcs, values)?;
    write_triplets(nrows, rows, cols, vals, row_ptrs, col_idcs, values);
    Ok(vals.len())
}

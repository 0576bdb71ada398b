// The three calls. Each answers the number of entries, the vector being in the lent memory.
ghost use Rattle.std.specs.Prelude.{◌≡◌, []};
ghost use Rattle.sparse.specs.Lent.{lent_vector, outcome};
ghost use Rattle.sparse.specs.Matrix.{seen};
ghost use Rattle.sparse.specs.Put.{putting_vector};
ghost use Rattle.sparse.specs.Tests.{well_formed};
ghost use Rattle.lasts.specs.Asks.{AllRows};
ghost use Rattle.lasts.specs.Gathers.{gathered};
ghost use Rattle.lasts.specs.Lasts.{last_column, last_column_rev, last_column_by_pivot};

use crate::gather::{Order, gather};
use pivots::inside::table_test;
use sparse::inside::well_formed;
use sparse::{MAX_ENTRIES, Matrix, Refusal};

// The last column, indexed by row; or the lowest of 1 to 6 and 14 that applies, and the memory as
// it came.
pub fn last_column(
    p: u32,
    matrix: Matrix,
    out_idcs: &mut [u32],
    out_vals: &mut [u32],
) -> Result<usize, Refusal>
    ensures { outcome result (lent_vector out_idcs.new out_vals.new) ≡ last_column p (seen matrix.entry) (lent_vector out_idcs.old out_vals.old) }
{
    by_rows(Order::ByRow, p, matrix, out_idcs, out_vals)
}

// The last column, indexed by rows-1-row; refused as `last_column` is.
pub fn last_column_rev(
    p: u32,
    matrix: Matrix,
    out_idcs: &mut [u32],
    out_vals: &mut [u32],
) -> Result<usize, Refusal>
    ensures { outcome result (lent_vector out_idcs.new out_vals.new) ≡ last_column_rev p (seen matrix.entry) (lent_vector out_idcs.old out_vals.old) }
{
    by_rows(Order::Reversed, p, matrix, out_idcs, out_vals)
}

// The last column in an order of all rows, for which no table is read.
fn by_rows(
    order: Order,
    p: u32,
    matrix: Matrix,
    out_idcs: &mut [u32],
    out_vals: &mut [u32],
) -> Result<usize, Refusal>
    requires { AllRows order }
    ensures { outcome result (lent_vector out_idcs.new out_vals.new) ≡ putting_vector (well_formed 65536 p (seen matrix.entry)) (gathered order (seen matrix.entry) []) (lent_vector out_idcs.old out_vals.old) }
{
    well_formed(MAX_ENTRIES, p, matrix)?;
    gather(order, matrix, &[], out_idcs, out_vals)
}

// The last column, indexed by pivot column; or the lowest of 1 to 6, 12 and 14 that applies, and the
// memory as it came. The vector is as long as the whole table.
pub fn last_column_by_pivot(
    p: u32,
    matrix: Matrix,
    pivots: &[u32],
    out_idcs: &mut [u32],
    out_vals: &mut [u32],
) -> Result<usize, Refusal>
    ensures { outcome result (lent_vector out_idcs.new out_vals.new) ≡ last_column_by_pivot p (seen matrix.entry) pivots.now (lent_vector out_idcs.old out_vals.old) }
{
    table_test(p, matrix, pivots)?;
    gather(Order::ByPivot, matrix, pivots, out_idcs, out_vals)
}

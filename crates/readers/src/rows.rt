// The last row, written to lent memory.
ghost use Rattle.std.specs.Prelude.{◌≡◌};
ghost use Rattle.sparse.specs.Lent.{lent_vector, outcome};
ghost use Rattle.sparse.specs.Matrix.{seen};
ghost use Rattle.readers.specs.Readers.{last_row};

use crate::LastRow;
use crate::inside::vector_room_test;
use sparse::inside::{copy, well_formed};
use sparse::{MAX_ENTRIES, Matrix, Refusal};

// The last row's number and entries, the row copied; nothing where there are no rows.
pub fn last_row(
    p: u32,
    matrix: Matrix,
    out_idcs: &mut [u32],
    out_vals: &mut [u32],
) -> Result<Option<LastRow>, Refusal>
    ensures { outcome result (lent_vector out_idcs.new out_vals.new) ≡ last_row p (seen matrix.entry) (lent_vector out_idcs.old out_vals.old) }
{
    let Matrix {
        nrows,
        row_ptrs,
        col_idcs,
        values,
        ..
    } = matrix;
    well_formed(MAX_ENTRIES, p, matrix)?;
    if nrows == 0 {
        return Ok(None);
    }
    let row = nrows - 1;
    let start = row_ptrs[row as usize];
    vector_room_test(values.len() - start, out_idcs, out_vals)?;
    copy(&col_idcs[start..], out_idcs);
    copy(&values[start..], out_vals);
    Ok(Some(LastRow {
        row,
        entries: values.len() - start,
    }))
}

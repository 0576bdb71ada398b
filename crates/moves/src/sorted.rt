// The rows of a matrix in the order of a pivot table.
ghost use Rattle.std.specs.Prelude.{◌≡◌};
ghost use Rattle.sparse.specs.Lent.{lent, outcome};
ghost use Rattle.sparse.specs.Matrix.{seen};
ghost use Rattle.sparse.specs.Put.{put_rows};
ghost use Rattle.moves.specs.Asks.{NamedFit};
ghost use Rattle.moves.specs.Moves.{sort_rows_by_pivot};
ghost use Rattle.moves.specs.Parts.{rows_named};

use pivots::inside::{MARK, table_test};
use sparse::inside::room_test;
use sparse::{Matrix, Refusal};
use writing::inside::put_matrix_row;

// The matrix with its rows in the order of the table; or the lowest of 1 to 6, 12 and 14 that applies,
// and the memory as it came.
pub fn sort_rows_by_pivot(
    p: u32,
    matrix: Matrix,
    pivots: &[u32],
    out_ptrs: &mut [usize],
    out_cols: &mut [u32],
    out_vals: &mut [u32],
) -> Result<usize, Refusal>
    ensures { outcome result (lent out_ptrs.new out_cols.new out_vals.new) ≡ sort_rows_by_pivot p (seen matrix.entry) pivots.now (lent out_ptrs.old out_cols.old out_vals.old) }
{
    let Matrix {
        nrows,
        row_ptrs,
        col_idcs,
        values,
        ..
    } = matrix;
    table_test(p, matrix, pivots)?;
    let entries = values.len();
    room_test(nrows, entries, out_ptrs, out_cols, out_vals)?;
    write_named(
        row_ptrs, col_idcs, values, pivots, out_ptrs, out_cols, out_vals,
    );
    Ok(entries)
}

// Writes the rows that the table names; `row` of them are written.
fn write_named(
    row_ptrs: &[usize],
    col_idcs: &[u32],
    values: &[u32],
    pivots: &[u32],
    out_ptrs: &mut [usize],
    out_cols: &mut [u32],
    out_vals: &mut [u32],
)
    requires { NamedFit row_ptrs.now col_idcs.now values.now pivots.now (lent out_ptrs.old out_cols.old out_vals.old) }
    ensures { lent out_ptrs.new out_cols.new out_vals.new ≡ put_rows (rows_named row_ptrs.now col_idcs.now values.now pivots.now) (lent out_ptrs.old out_cols.old out_vals.old) }
{
    out_ptrs[0] = 0;
    let mut at = 0;
    let mut row = 0;
    for &named in pivots {
        if named == MARK {
            continue;
        }
        let i = named as usize;
        at = put_matrix_row(row_ptrs, col_idcs, values, i, at, out_cols, out_vals);
        row += 1;
        out_ptrs[row] = at;
    }
}

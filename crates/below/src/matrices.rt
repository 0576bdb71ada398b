// A second matrix below the first. The result goes to separate lent memory.
ghost use Rattle.std.specs.Prelude.{◌≡◌, ◌+◌, ◌≤◌};
ghost use Rattle.sparse.specs.Lent.{lent, outcome};
ghost use Rattle.sparse.specs.Matrix.{seen};
ghost use Rattle.sparse.specs.Refusals.{lowest};
ghost use Rattle.below.specs.Below.{append_test, lower};
ghost use Rattle.below.specs.Parts.{both_tests};

use crate::rows::write_rows;
use joining::inside::sizes_test;
use sparse::inside::{Clause, room_test, rows_test, rows_values_test, shape_test};
use sparse::{Matrix, Refusal};

// The first matrix's rows, then the second's; or the lowest of 1 to 6, 11 and 14 that applies, and the
// memory as it came.
pub fn append(
    p: u32,
    matrix: Matrix,
    other: Matrix,
    out_ptrs: &mut [usize],
    out_cols: &mut [u32],
    out_vals: &mut [u32],
) -> Result<usize, Refusal>
    ensures { outcome result (lent out_ptrs.new out_cols.new out_vals.new) ≡ Rattle.below.specs.Below.append p (seen matrix.entry) (seen other.entry) (lent out_ptrs.old out_cols.old out_vals.old) }
{
    let Matrix {
        nrows: more_nrows,
        row_ptrs: more_ptrs,
        col_idcs: more_cols,
        values: more_values,
        ..
    } = other;
    let Matrix {
        nrows,
        row_ptrs,
        col_idcs,
        values,
        ..
    } = matrix;
    append_test(p, matrix, other)?;
    let entries = values.len() + more_values.len();
    room_test(nrows + more_nrows, entries, out_ptrs, out_cols, out_vals)?;
    write_rows(
        nrows,
        row_ptrs,
        col_idcs,
        values,
        more_nrows,
        more_ptrs,
        more_cols,
        more_values,
        out_ptrs,
        out_cols,
        out_vals,
    );
    Ok(entries)
}

// 1 to 6 of both, 2 of the result, and 11.
fn append_test(p: u32, matrix: Matrix, other: Matrix) -> Result<(), Refusal>
    ensures { result ≡ append_test p (seen matrix.entry) (seen other.entry) }
{
    let Matrix {
        nrows: more_nrows,
        ncols: more_ncols,
        values: more_values,
        ..
    } = other;
    let Matrix {
        nrows,
        ncols,
        values,
        ..
    } = matrix;
    let entries = values.len();
    let more = more_values.len();
    sizes_test(
        p, nrows, ncols, entries, more_nrows, more_ncols, more, more_nrows, 0,
    )?;
    both_test(p, matrix, other)?;
    if ncols != more_ncols {
        return Err(Refusal::Mismatch);
    }
    Ok(())
}

// 3 to 6 of two matrices.
fn both_test(p: u32, matrix: Matrix, other: Matrix) -> Result<(), Refusal>
    requires { matrix.nrows + other.nrows ≤ 1024 }
    ensures { result ≡ lowest (both_tests p (seen matrix.entry) (seen other.entry)) }
{
    let Matrix {
        nrows: more_nrows,
        ncols: more_ncols,
        row_ptrs: more_ptrs,
        col_idcs: more_cols,
        values: more_values,
    } = other;
    let Matrix {
        nrows,
        ncols,
        row_ptrs,
        col_idcs,
        values,
    } = matrix;
    shape_test(matrix)?;
    shape_test(other)?;
    let one = rows_test(nrows, ncols, row_ptrs, col_idcs);
    let two = rows_test(more_nrows, more_ncols, more_ptrs, more_cols);
    lower_of(one, two)?;
    rows_values_test(Clause::Residue, p, nrows, row_ptrs, values)?;
    rows_values_test(Clause::Residue, p, more_nrows, more_ptrs, more_values)
}

// The lower number of two, for 4 and 5 of two matrices.
fn lower_of(first: Result<(), Refusal>, second: Result<(), Refusal>) -> Result<(), Refusal>
    ensures { result ≡ lower first second }
{
    let Err(one) = first else {
        return second;
    };
    let Err(two) = second else {
        return Err(one);
    };
    if u32::from(one) <= u32::from(two) {
        return Err(one);
    }
    Err(two)
}

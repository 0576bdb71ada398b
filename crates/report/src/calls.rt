// The public call.
ghost use Rattle.std.specs.Prelude.{◌≡◌};
ghost use Rattle.sparse.specs.Lent.{lent, outcome};
ghost use Rattle.state.specs.Memory.{memory};
ghost use Rattle.running.specs.Rows.{night};
ghost use Rattle.reporting.specs.Said.{said_by};
ghost use Rattle.report.specs.Asks.{Tellable};
ghost use Rattle.report.specs.Report;
ghost use Rattle.report.specs.Work.{work};

use crate::rooms::work_test;
use market::MODULUS;
use market::lines::{Numbers, size_line};
use market::tests::market_test;
use reporting::lines::put_report;
use reporting::load::load;
use solving::solve::solve;
use sparse::{Matrix, Refusal};

// Loads the matrix, solves it and writes the output.
fn told(
    text: &[u8],
    size: Numbers,
    row_ptrs: &mut [usize],
    col_idcs: &mut [u32],
    values: &mut [u32],
    dense: &mut [u32],
    answers: &mut [u32],
    u_cols: &mut [u32],
    u_vals: &mut [u32],
    u_ptrs: &mut [usize],
    l_cols: &mut [u32],
    l_vals: &mut [u32],
    l_ptrs: &mut [usize],
    pivots: &mut [u32],
    out: &mut [u8],
) -> Result<usize, Refusal>
    requires { Tellable text.now size (work (lent row_ptrs.old col_idcs.old values.old) (night (memory u_cols.old u_vals.old u_ptrs.old l_cols.old l_vals.old l_ptrs.old pivots.old) answers.old dense.old) out.old) }
    ensures { outcome result (work (lent row_ptrs.new col_idcs.new values.new) (night (memory u_cols.new u_vals.new u_ptrs.new l_cols.new l_vals.new l_ptrs.new pivots.new) answers.new dense.new) out.new) ≡ Report.reported (said_by text.now size) (work (lent row_ptrs.old col_idcs.old values.old) (night (memory u_cols.old u_vals.old u_ptrs.old l_cols.old l_vals.old l_ptrs.old pivots.old) answers.old dense.old) out.old) }
{
    load(
        text, size, u_cols, u_vals, l_cols, row_ptrs, col_idcs, values,
    );
    let stop = size.row as usize + 1;
    let many = size.value as usize;
    let solved = solve(
        MODULUS,
        Matrix {
            nrows: size.row as u32,
            ncols: size.col as u32,
            row_ptrs: &row_ptrs[..stop],
            col_idcs: &col_idcs[..many],
            values: &values[..many],
        },
        dense,
        answers,
        u_cols,
        u_vals,
        u_ptrs,
        l_cols,
        l_vals,
        l_ptrs,
        pivots,
    );
    Ok(put_report(solved, u_cols, u_vals, u_ptrs, out))
}

// Rank, determinant and U of the matrix that a text says, modulo 2^31 - 1; or the number that the text
// is refused with, or 11 or 14 where lent memory is too short, and everything lent as it came.
pub fn report(
    text: &[u8],
    row_ptrs: &mut [usize],
    col_idcs: &mut [u32],
    values: &mut [u32],
    dense: &mut [u32],
    answers: &mut [u32],
    u_cols: &mut [u32],
    u_vals: &mut [u32],
    u_ptrs: &mut [usize],
    l_cols: &mut [u32],
    l_vals: &mut [u32],
    l_ptrs: &mut [usize],
    pivots: &mut [u32],
    out: &mut [u8],
) -> Result<usize, Refusal>
    ensures { outcome result (work (lent row_ptrs.new col_idcs.new values.new) (night (memory u_cols.new u_vals.new u_ptrs.new l_cols.new l_vals.new l_ptrs.new pivots.new) answers.new dense.new) out.new) ≡ Report.report text.now (work (lent row_ptrs.old col_idcs.old values.old) (night (memory u_cols.old u_vals.old u_ptrs.old l_cols.old l_vals.old l_ptrs.old pivots.old) answers.old dense.old) out.old) }
{
    market_test(text)?;
    work_test(
        row_ptrs, col_idcs, values, dense, answers, u_cols, u_vals, u_ptrs, l_cols, l_vals, l_ptrs,
        pivots, out,
    )?;
    let size = size_line(text).ok_or(Refusal::Text)?;
    told(
        text, size, row_ptrs, col_idcs, values, dense, answers, u_cols, u_vals, u_ptrs, l_cols,
        l_vals, l_ptrs, pivots, out,
    )
}

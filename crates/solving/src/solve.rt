// A matrix reduced twice: for its determinant, and from a fresh start for its rank and U.
ghost use Rattle.std.specs.Prelude.{◌≡◌, false};
ghost use Rattle.sparse.specs.Lent.{outcome};
ghost use Rattle.sparse.specs.Matrix.{seen};
ghost use Rattle.state.specs.Memory.{memory};
ghost use Rattle.stepping.specs.Take.{lists};
ghost use Rattle.running.specs.Rows.{night};
ghost use Rattle.anew.specs.Calls.{from_matrix};
ghost use Rattle.solving.specs.Solve;

use crate::Solved;
use anew::from_matrix;
use determinant::{Determined, det};
use sparse::Matrix;
use state::{Counts, Mode};
use telling::Reduced;

// A determinant's number.
fn worth_of(determined: Determined) -> Option<u32>
    ensures { result ≡ Solve.worth_of determined }
{
    match determined {
        Determined::Value(valued) => Some(valued.value),
        Determined::Stopped(_) => None,
        Determined::Refused(_) => None,
    }
}

// The determinant of a square matrix; the lists are left as its reduction leaves them.
pub fn worth(
    p: u32,
    matrix: Matrix,
    dense: &mut [u32],
    u_cols: &mut [u32],
    u_vals: &mut [u32],
    u_ptrs: &mut [usize],
    l_cols: &mut [u32],
    l_vals: &mut [u32],
    l_ptrs: &mut [usize],
    pivots: &mut [u32],
) -> Option<u32>
    ensures { outcome result (lists (memory u_cols.new u_vals.new u_ptrs.new l_cols.new l_vals.new l_ptrs.new pivots.new) dense.new) ≡ Solve.worth p (seen matrix.entry) (lists (memory u_cols.old u_vals.old u_ptrs.old l_cols.old l_vals.old l_ptrs.old pivots.old) dense.old) }
{
    let Matrix { nrows, ncols, .. } = matrix;
    if nrows != ncols {
        return None;
    }
    let determined = det(
        p, matrix, dense, u_cols, u_vals, u_ptrs, l_cols, l_vals, l_ptrs, pivots,
    );
    worth_of(determined)
}

// The counts after a call of many rows; none where it was refused.
fn counts_after(p: u32, ncols: u32, reduced: Reduced) -> Counts
    ensures { result ≡ Solve.counts_after p ncols reduced }
{
    match reduced {
        Reduced::Taken(run) => run.counts,
        Reduced::Dependent(run) => run.counts,
        Reduced::Stopped(stop) => stop.run.counts,
        Reduced::Refused(_) => Counts {
            mode: Mode::None,
            modulus: p,
            ncols,
            rank: 0,
            u_fill: 0,
            l_rows: 0,
            l_fill: 0,
        },
    }
}

// The rows from a fresh start, by the first walk; nothing is kept of L.
fn afresh(
    p: u32,
    matrix: Matrix,
    dense: &mut [u32],
    answers: &mut [u32],
    u_cols: &mut [u32],
    u_vals: &mut [u32],
    u_ptrs: &mut [usize],
    l_cols: &mut [u32],
    l_vals: &mut [u32],
    l_ptrs: &mut [usize],
    pivots: &mut [u32],
) -> Reduced
    ensures { outcome result (night (memory u_cols.new u_vals.new u_ptrs.new l_cols.new l_vals.new l_ptrs.new pivots.new) answers.new dense.new) ≡ from_matrix false false p Mode.None (seen matrix.entry) (night (memory u_cols.old u_vals.old u_ptrs.old l_cols.old l_vals.old l_ptrs.old pivots.old) answers.old dense.old) }
{
    from_matrix(
        p,
        Mode::None,
        matrix,
        dense,
        answers,
        u_cols,
        u_vals,
        u_ptrs,
        l_cols,
        l_vals,
        l_ptrs,
        pivots,
    )
}

// The determinant, and then the counts of a reduction from a fresh start, whose U is in the lists.
pub fn solve(
    p: u32,
    matrix: Matrix,
    dense: &mut [u32],
    answers: &mut [u32],
    u_cols: &mut [u32],
    u_vals: &mut [u32],
    u_ptrs: &mut [usize],
    l_cols: &mut [u32],
    l_vals: &mut [u32],
    l_ptrs: &mut [usize],
    pivots: &mut [u32],
) -> Solved
    ensures { outcome result (night (memory u_cols.new u_vals.new u_ptrs.new l_cols.new l_vals.new l_ptrs.new pivots.new) answers.new dense.new) ≡ Solve.solve p (seen matrix.entry) (night (memory u_cols.old u_vals.old u_ptrs.old l_cols.old l_vals.old l_ptrs.old pivots.old) answers.old dense.old) }
{
    let Matrix { ncols, .. } = matrix;
    let det = worth(
        p, matrix, dense, u_cols, u_vals, u_ptrs, l_cols, l_vals, l_ptrs, pivots,
    );
    let reduced = afresh(
        p, matrix, dense, answers, u_cols, u_vals, u_ptrs, l_cols, l_vals, l_ptrs, pivots,
    );
    Solved {
        det,
        counts: counts_after(p, ncols, reduced),
    }
}

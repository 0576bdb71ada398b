// Rows taken one after another.
ghost use Rattle.std.specs.Prelude.{◌≡◌};
ghost use Rattle.sparse.specs.Lent.{outcome};
ghost use Rattle.sparse.specs.Matrix.{seen};
ghost use Rattle.sparse.specs.Rows.{entries, rows_of, row_at};
ghost use Rattle.state.specs.Memory.{memory};
ghost use Rattle.stepping.specs.Take.{lists};
ghost use Rattle.adding.specs.AddRow.{take_row};
ghost use Rattle.running.specs.Asks.{Offers, Goes, GoesOn};
ghost use Rattle.running.specs.Rows.{written, night, next_row, take_rows};
ghost use Rattle.telling.specs.Runs.{run};
ghost use Rattle.telling.specs.declared.Reduced.TheVariants.{Taken};

use sparse::{Matrix, Refusal};
use state::Counts;
use stepping::Stepped;
use stepping::rows::{room_asked, step_row};
use telling::answers::{ended, tell};
use telling::{Reduced, Run, Stop};

// Takes all rows, or as many as the call takes. Dense memory is zero before and after.
pub fn take_rows(
    on: bool,
    check: bool,
    counts: Counts,
    matrix: Matrix,
    dense: &mut [u32],
    answers: &mut [u32],
    u_cols: &mut [u32],
    u_vals: &mut [u32],
    u_ptrs: &mut [usize],
    l_cols: &mut [u32],
    l_vals: &mut [u32],
    l_ptrs: &mut [usize],
    pivots: &mut [u32],
) -> Reduced
    requires { Goes counts (seen matrix) (night (memory u_cols.old u_vals.old u_ptrs.old l_cols.old l_vals.old l_ptrs.old pivots.old) answers.old dense.old) }
    ensures { outcome (outcome result (written (memory u_cols.new u_vals.new u_ptrs.new l_cols.new l_vals.new l_ptrs.new pivots.new) answers.new)) dense.new ≡ outcome (take_rows on check (rows_of (seen matrix.entry)) (outcome (Taken (run 0 counts)) (written (memory u_cols.old u_vals.old u_ptrs.old l_cols.old l_vals.old l_ptrs.old pivots.old) answers.old))) dense.old }
{
    let Matrix { nrows, .. } = matrix;
    let mut run = Run { taken: 0, counts };
    for _ in 0..nrows {
        let next = next_row(
            on, check, run, matrix, dense, answers, u_cols, u_vals, u_ptrs, l_cols, l_vals, l_ptrs,
            pivots,
        );
        let Reduced::Taken(more) = next else {
            return next;
        };
        run = more;
    }
    Reduced::Taken(run)
}

// Takes one row more: its answer is written, or the call ends for want of room.
fn next_row(
    on: bool,
    check: bool,
    run: Run,
    matrix: Matrix,
    dense: &mut [u32],
    answers: &mut [u32],
    u_cols: &mut [u32],
    u_vals: &mut [u32],
    u_ptrs: &mut [usize],
    l_cols: &mut [u32],
    l_vals: &mut [u32],
    l_ptrs: &mut [usize],
    pivots: &mut [u32],
) -> Reduced
    requires { GoesOn run (seen matrix) (night (memory u_cols.old u_vals.old u_ptrs.old l_cols.old l_vals.old l_ptrs.old pivots.old) answers.old dense.old) }
    ensures { outcome (outcome result (written (memory u_cols.new u_vals.new u_ptrs.new l_cols.new l_vals.new l_ptrs.new pivots.new) answers.new)) dense.new ≡ outcome (next_row on check (row_at (seen matrix.entry) run.taken) run (written (memory u_cols.old u_vals.old u_ptrs.old l_cols.old l_vals.old l_ptrs.old pivots.old) answers.old)) dense.old }
{
    let Matrix {
        row_ptrs,
        col_idcs,
        values,
        ..
    } = matrix;
    let taken = run.taken as usize;
    let counts = run.counts;
    let start = row_ptrs[taken];
    let end = row_ptrs[taken + 1];
    let added = take_row(
        on,
        counts,
        &col_idcs[start..end],
        &values[start..end],
        dense,
        u_cols,
        u_vals,
        u_ptrs,
        l_cols,
        l_vals,
        l_ptrs,
        pivots,
    );
    match added {
        Err(why) => Reduced::Stopped(Stop { why, run }),
        Ok(stepped) => {
            let answer = stepped.answer;
            let after = stepped.counts;
            tell(answer, taken, answers);
            let run = Run {
                taken: run.taken + 1,
                counts: after,
            };
            ended(check, answer, run)
        }
    }
}

// Steps 1 to 4 of a clean row, dense memory being zero: room is asked, then the row is taken.
fn take_row(
    on: bool,
    counts: Counts,
    cols: &[u32],
    vals: &[u32],
    dense: &mut [u32],
    u_cols: &mut [u32],
    u_vals: &mut [u32],
    u_ptrs: &mut [usize],
    l_cols: &mut [u32],
    l_vals: &mut [u32],
    l_ptrs: &mut [usize],
    pivots: &mut [u32],
) -> Result<Stepped, Refusal>
    requires { Offers counts cols.now vals.now (lists (memory u_cols.old u_vals.old u_ptrs.old l_cols.old l_vals.old l_ptrs.old pivots.old) dense.old) }
    ensures { outcome result (lists (memory u_cols.new u_vals.new u_ptrs.new l_cols.new l_vals.new l_ptrs.new pivots.new) dense.new) ≡ take_row on counts (entries cols.now vals.now) (lists (memory u_cols.old u_vals.old u_ptrs.old l_cols.old l_vals.old l_ptrs.old pivots.old) dense.old) }
{
    room_asked(
        counts, cols, vals, u_cols, u_vals, u_ptrs, l_cols, l_vals, l_ptrs, pivots,
    )?;
    Ok(step_row(
        on, counts, cols, vals, dense, u_cols, u_vals, u_ptrs, l_cols, l_vals, l_ptrs, pivots,
    ))
}

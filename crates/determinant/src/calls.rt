// The determinant.
ghost use Rattle.std.specs.Prelude.{◌≡◌};
ghost use Rattle.sparse.specs.Lent.{outcome};
ghost use Rattle.sparse.specs.Matrix.{seen};
ghost use Rattle.state.specs.Memory.{memory};
ghost use Rattle.stepping.specs.Take.{lists};
ghost use Rattle.determinant.specs.Asks.{Readable};
ghost use Rattle.determinant.specs.Det;

use crate::{Determined, Valued};
use batches::rows::take_anew;
use signs::values::value_of;
use sparse::{Matrix, Refusal, try_from_csr_clean};
use state::Mode;
use state::start::start_test;
use telling::Reduced;

// The determinant modulo p: the rows are taken from a fresh start until one is answered None, and the
// state after them stays in the lists; or the lowest of 1 to 7, 10, 11 and, where a first pointer has no
// place, 14, and everything lent as it came. 14 at a row ends the call, and the rows before it stay.
pub fn det(
    p: u32,
    matrix: Matrix,
    dense: &mut [u32],
    u_cols: &mut [u32],
    u_vals: &mut [u32],
    u_ptrs: &mut [usize],
    l_cols: &mut [u32],
    l_vals: &mut [u32],
    l_ptrs: &mut [usize],
    pivots: &mut [u32],
) -> Determined
    ensures { outcome result (lists (memory u_cols.new u_vals.new u_ptrs.new l_cols.new l_vals.new l_ptrs.new pivots.new) dense.new) ≡ Det.det p (seen matrix.entry) (lists (memory u_cols.old u_vals.old u_ptrs.old l_cols.old l_vals.old l_ptrs.old pivots.old) dense.old) }
{
    let Matrix { ncols, .. } = matrix;
    let tested = det_test(p, matrix, dense, u_ptrs, l_ptrs, pivots);
    if let Err(why) = tested {
        return Determined::Refused(why);
    }
    let mut told = [0; 1];
    let reduced = take_anew(
        false,
        true,
        p,
        Mode::Full,
        matrix,
        dense,
        &mut told[..0],
        u_cols,
        u_vals,
        u_ptrs,
        l_cols,
        l_vals,
        l_ptrs,
        pivots,
    );
    valued(p, ncols, reduced, l_vals, l_ptrs, pivots)
}

// 1 to 7 of the rows, 10, 11, and 14 at the fresh start.
fn det_test(
    p: u32,
    matrix: Matrix,
    dense: &[u32],
    u_ptrs: &[usize],
    l_ptrs: &[usize],
    pivots: &[u32],
) -> Result<(), Refusal>
    ensures { result ≡ Det.det_test p (seen matrix.entry) dense.now u_ptrs.now l_ptrs.now pivots.now }
{
    let Matrix { nrows, ncols, .. } = matrix;
    try_from_csr_clean(p, matrix)?;
    if nrows != ncols {
        return Err(Refusal::NotSquare);
    }
    if dense.len() < ncols as usize {
        return Err(Refusal::Mismatch);
    }
    if pivots.len() < ncols as usize {
        return Err(Refusal::Mismatch);
    }
    start_test(Mode::Full, u_ptrs, l_ptrs)
}

// What the reduction comes to.
fn valued(
    p: u32,
    ncols: u32,
    reduced: Reduced,
    l_vals: &[u32],
    l_ptrs: &[usize],
    pivots: &[u32],
) -> Determined
    requires { Readable p ncols reduced l_vals.now l_ptrs.now pivots.now }
    ensures { result ≡ Det.valued p ncols reduced l_vals.now l_ptrs.now pivots.now }
{
    match reduced {
        Reduced::Taken(run) => {
            let counts = run.counts;
            Determined::Value(Valued {
                value: value_of(p, ncols, counts.l_rows, l_vals, l_ptrs, pivots),
                run,
            })
        }
        Reduced::Dependent(run) => Determined::Value(Valued { value: 0, run }),
        Reduced::Stopped(stop) => Determined::Stopped(stop),
        Reduced::Refused(why) => Determined::Refused(why),
    }
}

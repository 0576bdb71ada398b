// Back substitution: the call, and its tests.
ghost use Rattle.std.specs.Prelude.{◌≡◌};
ghost use Rattle.sparse.specs.Lent.{lent, outcome};
ghost use Rattle.state.specs.Memory.{memory};
ghost use Rattle.backing.specs.Asks.{open_test};
ghost use Rattle.backing.specs.Back.{back_test, back_counts, backing, back_substitute};

use crate::rows::build;
use sparse::inside::{modulus_test, room_test, size_test};
use sparse::{MAX_ENTRIES, Refusal};
use state::inside::state_test;
use state::{Counts, Mode};
use walk::kernels::wipe;

// Writes U's rows, reduced, to the second U, makes the pivot table theirs, and answers their counts, with
// no L; or the lowest of 1, 2, 11, 13 and 14 that applies, and everything lent as it came.
pub fn back_substitute(
    counts: Counts,
    dense: &mut [u32],
    back_cols: &mut [u32],
    back_vals: &mut [u32],
    back_ptrs: &mut [usize],
    u_cols: &[u32],
    u_vals: &[u32],
    u_ptrs: &[usize],
    l_cols: &[u32],
    l_vals: &[u32],
    l_ptrs: &[usize],
    pivots: &mut [u32],
) -> Result<Counts, Refusal>
    ensures { outcome result (backing pivots.new (lent back_ptrs.new back_cols.new back_vals.new) dense.new) ≡ back_substitute counts (memory u_cols.now u_vals.now u_ptrs.now l_cols.now l_vals.now l_ptrs.now pivots.old) (lent back_ptrs.old back_cols.old back_vals.old) dense.old }
{
    back_test(
        counts, dense, back_cols, back_vals, back_ptrs, u_cols, u_vals, u_ptrs, l_cols, l_vals,
        l_ptrs, pivots,
    )?;
    let n = counts.ncols as usize;
    let front = &mut dense[..n];
    wipe(0, front);
    let fill = build(
        counts, front, back_cols, back_vals, back_ptrs, u_cols, u_vals, u_ptrs, pivots,
    );
    Ok(back_counts(counts, fill))
}

// 1, 2, 11, 13 and 14. The rank is known to be a number of rows only after 13.
fn back_test(
    counts: Counts,
    dense: &[u32],
    back_cols: &[u32],
    back_vals: &[u32],
    back_ptrs: &[usize],
    u_cols: &[u32],
    u_vals: &[u32],
    u_ptrs: &[usize],
    l_cols: &[u32],
    l_vals: &[u32],
    l_ptrs: &[usize],
    pivots: &[u32],
) -> Result<(), Refusal>
    ensures { result ≡ back_test dense.now counts (memory u_cols.now u_vals.now u_ptrs.now l_cols.now l_vals.now l_ptrs.now pivots.now) (lent back_ptrs.now back_cols.now back_vals.now) }
{
    open_test(counts.modulus, counts.ncols, dense.len(), pivots.len())?;
    state_test(
        counts, u_cols, u_vals, u_ptrs, l_cols, l_vals, l_ptrs, pivots,
    )?;
    let rank = counts.rank;
    let entries = rank * (counts.ncols as usize - rank + 1);
    room_test(rank as u32, entries, back_ptrs, back_cols, back_vals)
}

// 1, 2 and 11.
fn open_test(p: u32, ncols: u32, dense: usize, table: usize) -> Result<(), Refusal>
    ensures { result ≡ open_test p ncols dense table }
{
    modulus_test(p)?;
    size_test(MAX_ENTRIES, 0, ncols, 0)?;
    if dense < ncols as usize {
        return Err(Refusal::Mismatch);
    }
    if table < ncols as usize {
        return Err(Refusal::Mismatch);
    }
    Ok(())
}

// The counts of so many entries, and of no L.
fn back_counts(counts: Counts, fill: usize) -> Counts
    ensures { result ≡ back_counts counts fill }
{
    Counts {
        mode: Mode::None,
        modulus: counts.modulus,
        ncols: counts.ncols,
        rank: counts.rank,
        u_fill: fill,
        l_rows: 0,
        l_fill: 0,
    }
}

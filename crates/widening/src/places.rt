// Inserting columns in a reducer: U's columns move up, and the pivot table with them.
ghost use Rattle.std.specs.Prelude.{◌≡◌, ◌+◌, ◌≤◌};
ghost use Rattle.sparse.specs.Lent.{outcome};
ghost use Rattle.state.specs.Memory.{memory};
ghost use Rattle.widening.specs.Asks.{Spreads};
ghost use Rattle.widening.specs.AddCols.{spread, wider_counts, width_test, add_cols_test, add_cols};

use columns::positions::{move_columns, positions_test, wider_test};
use pivots::inside::MARK;
use sparse::inside::{modulus_test, size_test};
use sparse::{MAX_ENTRIES, Refusal};
use state::Counts;
use state::inside::state_test;

// Moves U's columns and their pivots up, gives the new columns no pivot, and answers the new counts; or
// the lowest of 1, 2, 11, 12 and 13 that applies, and the memory as it came. L stays as it is.
pub fn add_cols(
    counts: Counts,
    positions: &[u32],
    u_cols: &mut [u32],
    u_vals: &[u32],
    u_ptrs: &[usize],
    l_cols: &[u32],
    l_vals: &[u32],
    l_ptrs: &[usize],
    pivots: &mut [u32],
) -> Result<Counts, Refusal>
    ensures { outcome result (memory u_cols.new u_vals.now u_ptrs.now l_cols.now l_vals.now l_ptrs.now pivots.new) ≡ add_cols counts positions.now (memory u_cols.old u_vals.now u_ptrs.now l_cols.now l_vals.now l_ptrs.now pivots.old) }
{
    add_cols_test(
        counts, positions, u_cols, u_vals, u_ptrs, l_cols, l_vals, l_ptrs, pivots,
    )?;
    let fill = counts.u_fill;
    move_columns(positions, &mut u_cols[..fill]);
    spread_pivots(counts.ncols, positions, pivots);
    Ok(wider_counts(counts, positions.len() as u32))
}

// 1, 2 for the new columns too, 11, 12 and 13.
fn add_cols_test(
    counts: Counts,
    positions: &[u32],
    u_cols: &[u32],
    u_vals: &[u32],
    u_ptrs: &[usize],
    l_cols: &[u32],
    l_vals: &[u32],
    l_ptrs: &[usize],
    pivots: &[u32],
) -> Result<(), Refusal>
    ensures { result ≡ add_cols_test counts positions.now (memory u_cols.now u_vals.now u_ptrs.now l_cols.now l_vals.now l_ptrs.now pivots.now) }
{
    modulus_test(counts.modulus)?;
    width_test(counts.ncols, positions.len(), pivots.len())?;
    positions_test(counts.ncols, positions)?;
    state_test(
        counts, u_cols, u_vals, u_ptrs, l_cols, l_vals, l_ptrs, pivots,
    )
}

// 2, for the new columns too, and 11. The number of positions may be as long as a slice: the sum waits
// for its limit.
fn width_test(ncols: u32, more: usize, places: usize) -> Result<(), Refusal>
    ensures { result ≡ width_test ncols more places }
{
    size_test(MAX_ENTRIES, 0, ncols, 0)?;
    wider_test(0, ncols, 0, more)?;
    if places < ncols as usize + more {
        return Err(Refusal::Mismatch);
    }
    Ok(())
}

// Moves each pivot with its column, from the right so that none is written over before it is read:
// `from` old columns and the first `left` positions are left.
fn spread_pivots(ncols: u32, positions: &[u32], pivots: &mut [u32])
    requires { Spreads ncols positions.now pivots.old }
    ensures { pivots.new ≡ spread ncols positions.now pivots.old }
{
    let mut from = ncols as usize;
    let mut left = positions.len();
    // A while: a turn lowers `left` for a new column, and `from` for an old one.
    while left > 0 {
        let to = from + left - 1;
        if positions[left - 1] as usize >= from {
            pivots[to] = MARK;
            left -= 1;
        } else {
            pivots[to] = pivots[from - 1];
            from -= 1;
        }
    }
}

// The counts with so many columns more.
fn wider_counts(counts: Counts, more: u32) -> Counts
    requires { counts.ncols + more ≤ 1024 }
    ensures { result ≡ wider_counts counts more }
{
    Counts {
        ncols: counts.ncols + more,
        ..counts
    }
}

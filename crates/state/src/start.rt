// A fresh start.
ghost use Rattle.std.specs.Prelude.{◌≡◌, ◌≤◌, length};
ghost use Rattle.lists.specs.Onto.{◌onto◌};
ghost use Rattle.lists.specs.Table.{table};
ghost use Rattle.sparse.specs.Lent.{outcome};
ghost use Rattle.sparse.specs.Pivots.{mark};
ghost use Rattle.state.specs.Asks.{Startable};
ghost use Rattle.state.specs.Fresh.{counts, keeps, opening, start_test, started, new_test};

use crate::{Counts, Mode};
use pivots::inside::MARK;
use sparse::inside::{modulus_test, size_test};
use sparse::{MAX_ENTRIES, Refusal};

// Opens a reducer of so many columns; or the lowest of 1, 2, 11 and 14 that applies, and the memory as
// it came. What the memory held is never read.
pub fn new(
    p: u32,
    ncols: u32,
    mode: Mode,
    u_ptrs: &mut [usize],
    l_ptrs: &mut [usize],
    pivots: &mut [u32],
) -> Result<Counts, Refusal>
    ensures { outcome result (opening u_ptrs.new l_ptrs.new pivots.new) ≡ Rattle.state.specs.Fresh.new p ncols mode (opening u_ptrs.old l_ptrs.old pivots.old) }
{
    new_test(p, ncols, mode, u_ptrs, l_ptrs, pivots)?;
    start(ncols, mode, u_ptrs, l_ptrs, pivots);
    Ok(fresh_counts(p, ncols, mode))
}

// The counts of a fresh start.
pub fn fresh_counts(p: u32, ncols: u32, mode: Mode) -> Counts
    ensures { result ≡ counts mode p ncols 0 0 0 0 }
{
    Counts {
        mode,
        modulus: p,
        ncols,
        rank: 0,
        u_fill: 0,
        l_rows: 0,
        l_fill: 0,
    }
}

fn new_test(
    p: u32,
    ncols: u32,
    mode: Mode,
    u_ptrs: &[usize],
    l_ptrs: &[usize],
    pivots: &[u32],
) -> Result<(), Refusal>
    ensures { result ≡ new_test p ncols mode (opening u_ptrs.now l_ptrs.now pivots.now) }
{
    modulus_test(p)?;
    size_test(MAX_ENTRIES, 0, ncols, 0)?;
    if pivots.len() < ncols as usize {
        return Err(Refusal::Mismatch);
    }
    start_test(mode, u_ptrs, l_ptrs)
}

// 14 at the fresh start: a place for the first pointer of U, and of a kept L.
pub fn start_test(mode: Mode, u_ptrs: &[usize], l_ptrs: &[usize]) -> Result<(), Refusal>
    ensures { result ≡ start_test mode u_ptrs.now l_ptrs.now }
{
    if u_ptrs.len() == 0 {
        return Err(Refusal::Room);
    }
    if l_ptrs.len() > 0 {
        return Ok(());
    }
    if keeps_l(mode) {
        return Err(Refusal::Room);
    }
    Ok(())
}

// Whether an L is kept.
pub fn keeps_l(mode: Mode) -> bool
    ensures { result ≡ keeps mode }
{
    match mode {
        Mode::Full => true,
        Mode::Pattern => true,
        Mode::None => false,
    }
}

// Writes the first pointers, and the mark over the column range.
pub fn start(ncols: u32, mode: Mode, u_ptrs: &mut [usize], l_ptrs: &mut [usize], pivots: &mut [u32])
    requires { Startable ncols mode (opening u_ptrs.old l_ptrs.old pivots.old) }
    ensures { opening u_ptrs.new l_ptrs.new pivots.new ≡ started mode ncols (opening u_ptrs.old l_ptrs.old pivots.old) }
{
    mark_columns(ncols, pivots);
    u_ptrs[0] = 0;
    if keeps_l(mode) {
        l_ptrs[0] = 0;
        return;
    }
}

fn mark_columns(ncols: u32, pivots: &mut [u32])
    requires { ncols ≤ length pivots.old }
    ensures { pivots.new ≡ table ncols (λ j. mark) onto pivots.old }
{
    pivots[..ncols as usize].fill(MARK);
}

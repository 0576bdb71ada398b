// Whether reducer memory is a state, and whether it has room for a row more.
ghost use Rattle.std.specs.Prelude.{◌≡◌, ◌-◌};
ghost use Rattle.state.specs.Asks.{Opened};
ghost use Rattle.state.specs.Memory.{memory, at_most};
ghost use Rattle.state.specs.Room.{u_full, pattern_full, l_full, room_test};
ghost use Rattle.state.specs.State.{state_test};

use crate::multipliers::l_fault;
use crate::rows::u_unsound;
use crate::{Counts, Mode};
use sparse::Refusal;

// The most places of a slice that U and L use.
pub const MAX_PLACES: usize = 1048576;

// How many of the places of a slice U and L use.
pub fn places(len: usize) -> usize
    ensures { result ≡ at_most len }
{
    len.min(MAX_PLACES)
}

// 13: whether the memory is a state.
pub fn state_test(
    counts: Counts,
    u_cols: &[u32],
    u_vals: &[u32],
    u_ptrs: &[usize],
    l_cols: &[u32],
    l_vals: &[u32],
    l_ptrs: &[usize],
    pivots: &[u32],
) -> Result<(), Refusal>
    requires { Opened counts.modulus counts.ncols pivots.now }
    ensures { result ≡ state_test counts (memory u_cols.now u_vals.now u_ptrs.now l_cols.now l_vals.now l_ptrs.now pivots.now) }
{
    let p = counts.modulus;
    let ncols = counts.ncols;
    let rank = counts.rank;
    let fill = counts.u_fill;
    if u_unsound(p, ncols, rank, fill, u_cols, u_vals, u_ptrs, pivots) {
        return Err(Refusal::State);
    }
    if l_fault(counts, l_cols, l_vals, l_ptrs) {
        return Err(Refusal::State);
    }
    Ok(())
}

// How many places of a slice are free.
pub fn free(len: usize, fill: usize) -> usize
    ensures { result ≡ at_most len - fill }
{
    places(len).saturating_sub(fill)
}

// 14: whether there is room for one row more.
pub fn room_test(
    counts: Counts,
    u_cols: &[u32],
    u_vals: &[u32],
    u_ptrs: &[usize],
    l_cols: &[u32],
    l_vals: &[u32],
    l_ptrs: &[usize],
    pivots: &[u32],
) -> Result<(), Refusal>
    ensures { result ≡ room_test counts (memory u_cols.now u_vals.now u_ptrs.now l_cols.now l_vals.now l_ptrs.now pivots.now) }
{
    let ncols = counts.ncols;
    let rank = counts.rank;
    let fill = counts.u_fill;
    if u_full(ncols, rank, fill, u_cols, u_vals, u_ptrs) {
        return Err(Refusal::Room);
    }
    if l_full(counts, l_cols, l_vals, l_ptrs) {
        return Err(Refusal::Room);
    }
    Ok(())
}

// Whether U has fewer free entry places than columns, or no free row pointer. No sum is formed, so
// that any counts can be asked about.
fn u_full(ncols: u32, rank: usize, fill: usize, cols: &[u32], vals: &[u32], ptrs: &[usize]) -> bool
    ensures { result ≡ u_full ncols rank fill cols.now vals.now ptrs.now }
{
    if free(cols.len(), fill) < ncols as usize {
        return true;
    }
    if free(vals.len(), fill) < ncols as usize {
        return true;
    }
    free(ptrs.len(), rank) <= 1
}

// Whether L has too few free places, by what is kept of it.
fn l_full(counts: Counts, cols: &[u32], vals: &[u32], ptrs: &[usize]) -> bool
    ensures { result ≡ l_full counts.mode counts cols.now vals.now ptrs.now }
{
    let rank = counts.rank;
    let rows = counts.l_rows;
    let fill = counts.l_fill;
    let mode = counts.mode;
    match mode {
        Mode::Full => {
            if pattern_full(rank, rows, fill, cols, ptrs) {
                return true;
            }
            free(vals.len(), fill) <= rank
        }
        Mode::Pattern => pattern_full(rank, rows, fill, cols, ptrs),
        Mode::None => false,
    }
}

// Whether L has fewer than rank+1 free column places, or no free pointer.
fn pattern_full(rank: usize, rows: usize, fill: usize, cols: &[u32], ptrs: &[usize]) -> bool
    ensures { result ≡ pattern_full rank rows fill cols.now ptrs.now }
{
    if free(cols.len(), fill) <= rank {
        return true;
    }
    free(ptrs.len(), rows) <= 1
}

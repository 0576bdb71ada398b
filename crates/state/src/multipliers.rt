// Whether L is rows of multipliers: of U's rows, and in Full mode with values in 1..p-1.
ghost use Rattle.std.specs.Prelude.{◌≡◌, ◌+◌, ◌≤◌, ◌<◌, leb, ltb, length, get_or};
ghost use Rattle.lists.specs.Find.{any};
ghost use Rattle.state.specs.State.{crooked, pattern_fault, values_fault, l_fault};

use crate::inside::places;
use crate::{Counts, Mode};
use sparse::inside::{Clause, values_test};

// Whether the lists aren't those of an L, by what is kept of it.
pub fn l_fault(counts: Counts, l_cols: &[u32], l_vals: &[u32], l_ptrs: &[usize]) -> bool
    ensures { result ≡ l_fault counts.mode counts l_cols.now l_vals.now l_ptrs.now }
{
    let rank = counts.rank;
    let rows = counts.l_rows;
    let fill = counts.l_fill;
    let p = counts.modulus;
    let mode = counts.mode;
    match mode {
        Mode::Full => {
            if pattern_fault(rank, rows, fill, l_cols, l_ptrs) {
                return true;
            }
            values_fault(p, fill, l_vals)
        }
        Mode::Pattern => pattern_fault(rank, rows, fill, l_cols, l_ptrs),
        Mode::None => {
            if rows != 0 {
                return true;
            }
            fill != 0
        }
    }
}

// Whether L's rows or columns pass their places, its pointers are crooked, or a column isn't below the rank.
fn pattern_fault(rank: usize, rows: usize, fill: usize, cols: &[u32], ptrs: &[usize]) -> bool
    ensures { result ≡ pattern_fault rank rows fill cols.now ptrs.now }
{
    if places(ptrs.len()) <= rows {
        return true;
    }
    if places(cols.len()) < fill {
        return true;
    }
    if is_crooked(rows, fill, ptrs) {
        return true;
    }
    some_above(rank, fill, cols)
}

// Whether L's values pass their places, or one isn't in 1..p-1.
fn values_fault(p: u32, fill: usize, vals: &[u32]) -> bool
    ensures { result ≡ values_fault p fill vals.now }
{
    if places(vals.len()) < fill {
        return true;
    }
    if values_test(Clause::Residue, p, &vals[..fill]).is_err() {
        return true;
    }
    values_test(Clause::Nonzero, p, &vals[..fill]).is_err()
}

// Whether pointers don't start at 0, fall, or don't end at the fill.
pub fn is_crooked(rows: usize, fill: usize, ptrs: &[usize]) -> bool
    requires { rows < length ptrs.now }
    ensures { result ≡ crooked rows fill ptrs.now }
{
    if ptrs[0] != 0 {
        return true;
    }
    if some_fall(rows, ptrs) {
        return true;
    }
    ptrs[rows] != fill
}

fn some_fall(rows: usize, ptrs: &[usize]) -> bool
    requires { rows < length ptrs.now }
    ensures { result ≡ any rows (λ i. ltb (get_or ptrs.now (i + 1) 0) (get_or ptrs.now i 0)) }
{
    !ptrs[..=rows].is_sorted()
}

fn some_above(rank: usize, fill: usize, cols: &[u32]) -> bool
    requires { fill ≤ length cols.now }
    ensures { result ≡ any fill (λ k. leb rank (get_or cols.now k 0)) }
{
    cols[..fill].iter().any(|col| *col as usize >= rank)
}

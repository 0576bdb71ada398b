// A row stored in U, and in L.
ghost use Rattle.std.specs.Prelude.{◌≡◌, length};
ghost use Rattle.sparse.specs.Lent.{outcome};
ghost use Rattle.walk.specs.Left.{rest_of};
ghost use Rattle.walk.specs.Step.{divided};
ghost use Rattle.storing.specs.Gathers.{l_row};
ghost use Rattle.taking.specs.Asks.{StoresU, StoresL};
ghost use Rattle.taking.specs.Stores.{upper, with_u, lower, with_l, kept_entries};

use state::Mode;
use storing::lower::write_l;
use storing::upper::write_u;

// Stores what is left of the row as U's row number `rank`: the free part of U is lent to the row's
// writer. The pivot is set last, for the writer reads the table as it was.
pub fn store_u(
    p: u32,
    rank: usize,
    fill: usize,
    dense: &[u32],
    limit: usize,
    head: usize,
    u_cols: &mut [u32],
    u_vals: &mut [u32],
    u_ptrs: &mut [usize],
    pivots: &mut [u32],
) -> usize
    requires { StoresU p rank fill dense.now limit head (upper u_cols.old u_vals.old u_ptrs.old pivots.old) }
    ensures { outcome result (upper u_cols.new u_vals.new u_ptrs.new pivots.new) ≡ outcome (length (divided p (length dense.now) (rest_of pivots.old limit dense.now) head)) (with_u rank fill head (divided p (length dense.now) (rest_of pivots.old limit dense.now) head) (upper u_cols.old u_vals.old u_ptrs.old pivots.old)) }
{
    let cols = &mut u_cols[fill..];
    let vals = &mut u_vals[fill..];
    let len = write_u(p, pivots, dense, limit, head, cols, vals);
    u_ptrs[rank + 1] = fill + len;
    pivots[head] = rank as u32;
    len
}

// Stores the multiples, and the head of an accepted row, as L's row number `rows`, by what is kept. A
// Pattern has no values, so of their list nothing is lent.
pub fn store_l(
    mode: Mode,
    rows: usize,
    fill: usize,
    pivots: &[u32],
    dense: &[u32],
    limit: usize,
    from: usize,
    head: usize,
    rank: u32,
    l_cols: &mut [u32],
    l_vals: &mut [u32],
    l_ptrs: &mut [usize],
) -> usize
    requires { StoresL mode rows fill pivots.now dense.now limit from head rank (lower l_cols.old l_vals.old l_ptrs.old) }
    ensures { outcome result (lower l_cols.new l_vals.new l_ptrs.new) ≡ outcome (kept_entries mode (l_row pivots.now dense.now limit head rank)) (with_l mode rows fill (l_row pivots.now dense.now limit head rank) (lower l_cols.old l_vals.old l_ptrs.old)) }
{
    match mode {
        Mode::Full => {
            let cols = &mut l_cols[fill..];
            let vals = &mut l_vals[fill..];
            let len = write_l(mode, pivots, dense, limit, from, head, rank, cols, vals);
            l_ptrs[rows + 1] = fill + len;
            len
        }
        Mode::Pattern => {
            let cols = &mut l_cols[fill..];
            let vals = &mut l_vals[..0];
            let len = write_l(mode, pivots, dense, limit, from, head, rank, cols, vals);
            l_ptrs[rows + 1] = fill + len;
            len
        }
        Mode::None => 0,
    }
}

// One row taken by the walk.
ghost use Rattle.std.specs.Prelude.{◌≡◌, length};
ghost use Rattle.sparse.specs.Rows.{entries};
ghost use Rattle.walk.specs.Left.{limit_of};
ghost use Rattle.walk.specs.Step.{step};
ghost use Rattle.taking.specs.Rows.{shown, storing, Takes};
ghost use Rattle.taking.specs.Stores.{upper, lower};

use crate::Walked;
use crate::stores::{store_l, store_u};
use state::Mode;
use walk::climb::walk;
use walk::kernels::{load, wipe};

// Takes a row that isn't empty: loads it, walks, and stores what is left. A row that document 01 copies
// directly is walked too, which comes to the same.
pub fn walk_row(
    on: bool,
    p: u32,
    mode: Mode,
    rank: usize,
    u_fill: usize,
    l_rows: usize,
    l_fill: usize,
    cols: &[u32],
    vals: &[u32],
    dense: &mut [u32],
    u_cols: &mut [u32],
    u_vals: &mut [u32],
    u_ptrs: &mut [usize],
    l_cols: &mut [u32],
    l_vals: &mut [u32],
    l_ptrs: &mut [usize],
    pivots: &mut [u32],
) -> Walked
    requires { Takes on p (length dense.old) mode rank u_fill l_rows l_fill cols.now vals.now dense.old (upper u_cols.old u_vals.old u_ptrs.old pivots.old) (lower l_cols.old l_vals.old l_ptrs.old) }
    ensures { shown result (upper u_cols.new u_vals.new u_ptrs.new pivots.new) (lower l_cols.new l_vals.new l_ptrs.new) dense.new ≡ storing mode (length dense.old) rank u_fill l_rows l_fill (step on p (length dense.old) rank (Rattle.walk.specs.Step.upper u_cols.old u_vals.old u_ptrs.old pivots.old) (entries cols.now vals.now)).answer (step on p (length dense.old) rank (Rattle.walk.specs.Step.upper u_cols.old u_vals.old u_ptrs.old pivots.old) (entries cols.now vals.now)) (upper u_cols.old u_vals.old u_ptrs.old pivots.old) (lower l_cols.old l_vals.old l_ptrs.old) }
{
    let n = dense.len();
    let from = cols[0] as usize;
    load(cols, vals, dense);
    let head = walk(on, p, u_cols, u_vals, u_ptrs, pivots, from, dense);
    let limit = limit_of(on, n, head);
    let l_len = store_l(
        mode,
        l_rows,
        l_fill,
        pivots,
        dense,
        limit,
        from,
        head,
        rank as u32,
        l_cols,
        l_vals,
        l_ptrs,
    );
    if head >= n {
        wipe(from, dense);
        return Walked {
            head: n,
            u_len: 0,
            l_len,
        };
    }
    let u_len = store_u(
        p, rank, u_fill, dense, limit, head, u_cols, u_vals, u_ptrs, pivots,
    );
    wipe(from, dense);
    Walked { head, u_len, l_len }
}

// Up to where pivots hold multiples.
fn limit_of(on: bool, n: usize, head: usize) -> usize
    ensures { result ≡ limit_of on n head }
{
    if on {
        return n;
    }
    head
}

// The second U: U's rows from the highest pivot column down, each cleared over the pivots before it.
ghost use Rattle.std.specs.Prelude.{◌≡◌, length};
ghost use mathlib.Core.List.{[], flatten};
ghost use Rattle.sparse.specs.Lent.{lent, outcome};
ghost use Rattle.state.specs.Memory.{memory};
ghost use Rattle.taking.specs.Stores.{upper};
ghost use Rattle.backing.specs.Asks.{Orders, ordered, Clears, stored_row, Builds};
ghost use Rattle.backing.specs.Back.{back_rows, backing, backed};

use pivots::inside::MARK;
use state::Counts;
use taking::stores::store_u;
use walk::climb::walk;
use walk::kernels::{load, wipe};

// Builds the second U and answers how many entries it has. Dense memory is zero before and after.
pub fn build(
    counts: Counts,
    dense: &mut [u32],
    back_cols: &mut [u32],
    back_vals: &mut [u32],
    back_ptrs: &mut [usize],
    u_cols: &[u32],
    u_vals: &[u32],
    u_ptrs: &[usize],
    pivots: &mut [u32],
) -> usize
    requires { Builds counts (memory u_cols.now u_vals.now u_ptrs.now [] [] [] pivots.old) (lent back_ptrs.old back_cols.old back_vals.old) dense.old }
    ensures { outcome result (backing pivots.new (lent back_ptrs.new back_cols.new back_vals.new) dense.new) ≡ outcome (length (flatten (back_rows counts (memory u_cols.now u_vals.now u_ptrs.now [] [] [] pivots.old)))) (backed counts (memory u_cols.now u_vals.now u_ptrs.now [] [] [] pivots.old) (lent back_ptrs.old back_cols.old back_vals.old) dense.old) }
{
    order_down(counts.ncols, back_ptrs, pivots);
    let rank = counts.rank;
    let mut fill = 0;
    for done in 0..rank {
        let row = back_ptrs[done + 1];
        let start = u_ptrs[row];
        let stop = u_ptrs[row + 1];
        fill += clear_row(
            counts.modulus,
            done,
            fill,
            &u_cols[start..stop],
            &u_vals[start..stop],
            dense,
            back_cols,
            back_vals,
            back_ptrs,
            pivots,
        );
    }
    fill
}

// Writes the first pointer, and U's row numbers from the highest pivot column down where the other
// pointers will stand: each is read before its place is needed. Leaves the table of no rows.
fn order_down(ncols: u32, back_ptrs: &mut [usize], pivots: &mut [u32])
    requires { Orders ncols pivots.old back_ptrs.old }
    ensures { outcome back_ptrs.new pivots.new ≡ ordered ncols pivots.old back_ptrs.old }
{
    back_ptrs[0] = 0;
    let mut found = 0;
    for col in (0..ncols as usize).rev() {
        let row = pivots[col];
        pivots[col] = MARK;
        if row != MARK {
            found += 1;
            back_ptrs[found] = row as usize;
        }
    }
}

// Clears a row over the pivots of the finished rows, which are the second U so far, and stores it as
// their next. Answers how many entries it has.
fn clear_row(
    p: u32,
    rank: usize,
    fill: usize,
    cols: &[u32],
    vals: &[u32],
    dense: &mut [u32],
    back_cols: &mut [u32],
    back_vals: &mut [u32],
    back_ptrs: &mut [usize],
    pivots: &mut [u32],
) -> usize
    requires { Clears p (length dense.old) rank fill cols.now vals.now dense.old (upper back_cols.old back_vals.old back_ptrs.old pivots.old) }
    ensures { outcome result (outcome (upper back_cols.new back_vals.new back_ptrs.new pivots.new) dense.new) ≡ outcome (stored_row p (length dense.old) rank fill cols.now vals.now (upper back_cols.old back_vals.old back_ptrs.old pivots.old)).told.u_len (outcome (stored_row p (length dense.old) rank fill cols.now vals.now (upper back_cols.old back_vals.old back_ptrs.old pivots.old)).u (stored_row p (length dense.old) rank fill cols.now vals.now (upper back_cols.old back_vals.old back_ptrs.old pivots.old)).dense) }
{
    let n = dense.len();
    let from = cols[0] as usize;
    load(cols, vals, dense);
    let head = walk(
        true, p, back_cols, back_vals, back_ptrs, pivots, from, dense,
    );
    let len = store_u(
        p, rank, fill, dense, n, head, back_cols, back_vals, back_ptrs, pivots,
    );
    wipe(from, dense);
    len
}

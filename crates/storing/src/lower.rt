// The new row of L.
ghost use Rattle.std.specs.Prelude.{◌≡◌, length, get_or};
ghost use Rattle.lists.specs.Onto.{◌onto◌};
ghost use Rattle.storing.specs.Asks.{Ends, Keeps};
ghost use Rattle.storing.specs.Counted.{counted, stored, kept_row};
ghost use Rattle.storing.specs.Gathers.{part_of, l_row};

use crate::Part;
use crate::gathers::gather;
use state::Mode;

// Writes the multiples and, for a row with a head, the new row's number and the head: to the free part
// of L, which is lent as such, by what is kept of it. Answers how many entries that is.
pub fn write_l(
    mode: Mode,
    pivots: &[u32],
    dense: &[u32],
    limit: usize,
    from: usize,
    head: usize,
    rank: u32,
    l_cols: &mut [u32],
    l_vals: &mut [u32],
) -> usize
    requires { Keeps mode pivots.now dense.now limit from head rank l_cols.old l_vals.old }
    ensures { stored result l_cols.new l_vals.new ≡ kept_row mode (l_row pivots.now dense.now limit head rank) l_cols.old l_vals.old }
{
    match mode {
        Mode::Full => {
            let last = value_at(dense, head);
            write_part(
                Part::Multiple,
                pivots,
                dense,
                limit,
                from,
                head,
                last,
                l_vals,
            );
            write_part(Part::Row, pivots, dense, limit, from, head, rank, l_cols)
        }
        Mode::Pattern => write_part(Part::Row, pivots, dense, limit, from, head, rank, l_cols),
        Mode::None => 0,
    }
}

// The entry at a column, 0 past the last.
fn value_at(dense: &[u32], col: usize) -> u32
    ensures { result ≡ get_or dense.now col 0 }
{
    dense.get(col).copied().unwrap_or(0)
}

// Writes a part of L's row, with `last` at the end where the row has a head.
fn write_part(
    part: Part,
    pivots: &[u32],
    dense: &[u32],
    limit: usize,
    from: usize,
    head: usize,
    last: u32,
    out: &mut [u32],
) -> usize
    requires { Ends part pivots.now dense.now limit from head last out.old }
    ensures { counted result out.new ≡ counted (length (part_of part pivots.now dense.now limit head last)) (part_of part pivots.now dense.now limit head last onto out.old) }
{
    let len = gather(part, pivots, dense, limit, from, limit, out);
    if head < dense.len() {
        out[len] = last;
        return len + 1;
    }
    len
}

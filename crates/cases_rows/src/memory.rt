// The memory of a line, and what the reducer's cases have in common: the counts, a mode as a number,
// and the lent lists, of which U, L and the pivots are the last seven words.
ghost use Rattle.std.specs.Prelude.{◌<◌};

use answers::Out;
use cases::table::Case;
use state::{Counts, Mode};

// The most elements of a list, and so of a lent list of U's or L's entries.
pub const ENTRIES: usize = 180000;

// The most elements of any other lent list.
pub const PLACES: usize = 2000;

// The numbers of a line: four lists of entries, and the rest.
pub const ROW_NUMBERS: usize = 760000;

// The pointers of a line.
pub const ROW_POINTERS: usize = 19956;

// The mode whose number is the word k.
pub fn mode<C: Copy>(case: &Case<C>, k: usize) -> Option<Mode> {
    match case.number(k) {
        0 => Some(Mode::Full),
        1 => Some(Mode::Pattern),
        2 => Some(Mode::None),
        _ => None,
    }
}

// The counts that are the first seven words.
pub fn counts<C: Copy>(case: &Case<C>) -> Option<Counts> {
    Some(Counts {
        mode: mode(case, 0)?,
        modulus: case.number(1),
        ncols: case.number(2),
        rank: case.wide_number(3),
        u_fill: case.wide_number(4),
        l_rows: case.wide_number(5),
        l_fill: case.wide_number(6),
    })
}

// Whether the lent lists that are no entries fit their memory; `red` is the first word of U, and
// those before it from `dense` on are lists too.
pub fn fits<C: Copy>(case: &Case<C>, dense: usize, red: usize) -> bool {
    if red > 100 || dense >= red {
        return false;
    }
    case.list(dense).len() <= PLACES
        && case.list(red - 1).len() <= PLACES
        && case.pointers(red + 2).len() <= PLACES
        && case.pointers(red + 5).len() <= PLACES
        && case.list(red + 6).len() <= PLACES
}

// The counts after a call, each behind a space.
pub fn put_counts(out: &mut Out, counts: Counts) {
    out.put_count(b"", counts.mode as u32);
    out.put_count(b"", counts.modulus);
    out.put_count(b"", counts.ncols);
    out.put_count(b"", counts.rank);
    out.put_count(b"", counts.u_fill);
    out.put_count(b"", counts.l_rows);
    out.put_count(b"", counts.l_fill);
}

// U, L and the pivots after a call.
pub fn put_memory(
    out: &mut Out,
    u_cols: &[u32],
    u_vals: &[u32],
    u_ptrs: &[usize],
    l_cols: &[u32],
    l_vals: &[u32],
    l_ptrs: &[usize],
    pivots: &[u32],
) {
    out.put_list(u_cols);
    out.put_list(u_vals);
    out.put_list(u_ptrs);
    out.put_list(l_cols);
    out.put_list(l_vals);
    out.put_list(l_ptrs);
    out.put_list(pivots);
}

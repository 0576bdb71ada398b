// Cases of columns inserted in a reducer, which lends U's columns and the pivots.
#![tactic(auto)]

use answers::Out;
use cases::memory::lend;
use cases::table::{Case, Row, has_call, read_case};
use cases_reduced::{ENTRIES, NUMBERS, put_made};
use cases_rows::memory::{PLACES, ROW_POINTERS, counts, fits};
use sparse::Refusal;
use state::Counts;

// The call, with the letters of its words: the counts, the positions, U, L, pivots.
const TABLE: [Row<()>; 1] = [Row((), "reducer_add_cols", "nnnwwwwlllpllpl")];

pub fn has(line: &[u8]) -> bool {
    has_call(line, &TABLE)
}

// Answers the line where it is a case of this call: lends the memory, calls, and puts the answer and the memory.
pub fn said(
    line: &[u8],
    nums: &mut [u32; NUMBERS],
    wides: &mut [usize; ROW_POINTERS],
    u_cols: &mut [u32; ENTRIES],
    pivots: &mut [u32; PLACES],
    out: &mut Out,
) -> Option<()> {
    let case = read_case(line, &TABLE, ENTRIES, nums, wides)?;
    let counts = counts(&case)?;
    if !fits(&case, 7, 8) {
        return None;
    }
    let u_cols = lend(case.list(8), u_cols);
    let pivots = lend(case.list(14), pivots);
    put_widened(out, add_cols(&case, counts, u_cols, pivots));
    out.put_list(u_cols);
    out.put_list(pivots);
    Some(())
}

fn add_cols(
    case: &Case<()>,
    counts: Counts,
    u_cols: &mut [u32],
    pivots: &mut [u32],
) -> Result<Counts, Refusal> {
    widening::add_cols(
        counts,
        case.list(7),
        u_cols,
        case.list(9),
        case.pointers(10),
        case.list(11),
        case.list(12),
        case.pointers(13),
        pivots,
    )
}

fn put_widened(out: &mut Out, widened: Result<Counts, Refusal>) {
    match widened {
        Ok(counts) => put_made(out, counts),
        Err(why) => out.put_refused(why),
    }
}

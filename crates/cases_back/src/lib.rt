// Cases of back substitution, which lends dense memory, the second U and the pivots.
#![tactic(auto)]

use answers::Out;
use cases::memory::lend;
use cases::table::{Case, Row, has_call, read_case};
use cases_reduced::{ENTRIES, NUMBERS, put_made};
use cases_rows::memory::{PLACES, ROW_POINTERS, counts, fits};
use sparse::Refusal;
use state::Counts;

// The call, with the letters of its words: the counts, dense memory, the second U, U, L, pivots.
const TABLE: [Row<()>; 1] = [Row((), "reducer_back_substitute", "nnnwwwwlllpllpllpl")];

pub fn has(line: &[u8]) -> bool {
    has_call(line, &TABLE)
}

// Answers the line where it is a case of this call.
pub fn said(
    line: &[u8],
    nums: &mut [u32; NUMBERS],
    wides: &mut [usize; ROW_POINTERS],
    dense: &mut [u32; PLACES],
    back_cols: &mut [u32; ENTRIES],
    back_vals: &mut [u32; ENTRIES],
    back_ptrs: &mut [usize; PLACES],
    pivots: &mut [u32; PLACES],
    out: &mut Out,
) -> Option<()> {
    let case = read_case(line, &TABLE, ENTRIES, nums, wides)?;
    let counts = counts(&case)?;
    if case.pointers(10).len() > PLACES || !fits(&case, 7, 11) {
        return None;
    }
    lent(
        &case, counts, dense, back_cols, back_vals, back_ptrs, pivots, out,
    );
    Some(())
}

// Lends the memory, calls, and puts the answer and the memory.
fn lent(
    case: &Case<()>,
    counts: Counts,
    dense: &mut [u32],
    back_cols: &mut [u32],
    back_vals: &mut [u32],
    back_ptrs: &mut [usize],
    pivots: &mut [u32],
    out: &mut Out,
) {
    let dense = lend(case.list(7), dense);
    let back_cols = lend(case.list(8), back_cols);
    let back_vals = lend(case.list(9), back_vals);
    let back_ptrs = lend(case.pointers(10), back_ptrs);
    let pivots = lend(case.list(17), pivots);
    let backed = back(case, counts, dense, back_cols, back_vals, back_ptrs, pivots);
    put_backed(out, backed);
    out.put_list(dense);
    out.put_list(back_cols);
    out.put_list(back_vals);
    out.put_list(back_ptrs);
    out.put_list(pivots);
}

fn back(
    case: &Case<()>,
    counts: Counts,
    dense: &mut [u32],
    back_cols: &mut [u32],
    back_vals: &mut [u32],
    back_ptrs: &mut [usize],
    pivots: &mut [u32],
) -> Result<Counts, Refusal> {
    backing::back_substitute(
        counts,
        dense,
        back_cols,
        back_vals,
        back_ptrs,
        case.list(11),
        case.list(12),
        case.pointers(13),
        case.list(14),
        case.list(15),
        case.pointers(16),
        pivots,
    )
}

fn put_backed(out: &mut Out, backed: Result<Counts, Refusal>) {
    match backed {
        Ok(counts) => put_made(out, counts),
        Err(why) => out.put_refused(why),
    }
}

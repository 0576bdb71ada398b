// Cases of the fresh start, which is lent the pointers of U and of L and the pivots.
#![tactic(auto)]

use answers::Out;
use cases::memory::lend;
use cases::table::{Case, Row, has_call, read_case};
use cases_rows::memory::{ENTRIES, PLACES, mode, put_counts};
use sparse::Refusal;
use state::Counts;

// The call, with the letters of its words.
const TABLE: [Row<()>; 1] = [Row((), "reducer_new", "nnnppl")];

pub fn has(line: &[u8]) -> bool {
    has_call(line, &TABLE)
}

// Answers the line where it is a case of this call: lends the memory, calls, and puts the answer and the memory.
pub fn said(
    line: &[u8],
    nums: &mut [u32],
    wides: &mut [usize],
    u_ptrs: &mut [usize],
    l_ptrs: &mut [usize],
    pivots: &mut [u32],
    out: &mut Out,
) -> Option<()> {
    let case = read_case(line, &TABLE, ENTRIES, nums, wides)?;
    let mode = mode(&case, 2)?;
    if !fits(&case) {
        return None;
    }
    let u_ptrs = lend(case.pointers(3), u_ptrs);
    let l_ptrs = lend(case.pointers(4), l_ptrs);
    let pivots = lend(case.list(5), pivots);
    let fresh = state::new(case.number(0), case.number(1), mode, u_ptrs, l_ptrs, pivots);
    put_fresh(out, fresh);
    out.put_list(u_ptrs);
    out.put_list(l_ptrs);
    out.put_list(pivots);
    Some(())
}

// Whether the lists fit the memory that is lent.
fn fits(case: &Case<()>) -> bool {
    case.pointers(3).len() <= PLACES
        && case.pointers(4).len() <= PLACES
        && case.list(5).len() <= PLACES
}

fn put_fresh(out: &mut Out, fresh: Result<Counts, Refusal>) {
    match fresh {
        Ok(counts) => {
            out.put(b"opened");
            put_counts(out, counts);
        }
        Err(why) => out.put_refused(why),
    }
}

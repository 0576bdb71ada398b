// Replays cases of the reducer's calls that take rows: reads them from standard input, one a line, and
// prints for each the answer, the counts and every lent element afterwards. The text form is that of
// replay's FORMAT.md.
#![tactic(auto)]

mod calls;

use calls::answer;
use cases::input::replay;
use cases::memory::LINES;
use cases_rows::memory::{ENTRIES, PLACES, ROW_NUMBERS, ROW_POINTERS};

// All memory is made here, once, as making it costs more than a case.
fn main(rt: HostRuntime) {
    let mut lines = [0u8; LINES];
    let mut nums = [0u32; ROW_NUMBERS];
    let mut wides = [0usize; ROW_POINTERS];
    let mut dense = [0u32; PLACES];
    let mut answers = [0u32; PLACES];
    let mut u_cols = [0u32; ENTRIES];
    let mut u_vals = [0u32; ENTRIES];
    let mut u_ptrs = [0usize; PLACES];
    let mut l_cols = [0u32; ENTRIES];
    let mut l_vals = [0u32; ENTRIES];
    let mut l_ptrs = [0usize; PLACES];
    let mut pivots = [0u32; PLACES];
    replay(rt.stdin(), rt.stdout(), &mut lines, |case, out| {
        answer(
            case,
            &mut nums,
            &mut wides,
            &mut dense,
            &mut answers,
            &mut u_cols,
            &mut u_vals,
            &mut u_ptrs,
            &mut l_cols,
            &mut l_vals,
            &mut l_ptrs,
            &mut pivots,
            out,
        )
    });
}

// Replays cases of the account check: reads accounts from standard input, one a line, and prints for each
// the verdict and dense memory afterwards. FORMAT.md says how an account is written.
#![tactic(auto)]

use cases::input::replay;
use cases_account::memory::{LINES, NUMBERS, PLACES, POINTERS};
use cases_account::said;

// All memory is made here, once, as making it costs more than a case.
fn main(rt: HostRuntime) {
    let mut lines = [0u8; LINES];
    let mut nums = [0u32; NUMBERS];
    let mut wides = [0usize; POINTERS];
    let mut dense = [0u32; PLACES];
    replay(rt.stdin(), rt.stdout(), &mut lines, |line, out| {
        said(line, &mut nums, &mut wides, &mut dense, out)
    });
}

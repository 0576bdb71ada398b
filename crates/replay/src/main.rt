// Replays cases: reads them from standard input, one a line, and prints for each the answer and
// every lent element afterwards. FORMAT.md has the text form.
#![tactic(auto)]

mod calls;

use calls::answer;
use cases::input::replay;
use cases::memory::LINES;
use words::{LONG, NUMBERS, POINTERS};

// All memory is made here, once, as making it costs more than a case.
fn main(rt: HostRuntime) {
    let mut lines = [0u8; LINES];
    let mut nums = [0u32; NUMBERS];
    let mut wides = [0usize; POINTERS];
    let mut ptrs = [0usize; LONG];
    let mut cols = [0u32; LONG];
    let mut vals = [0u32; LONG];
    let mut text = [0u8; LONG];
    replay(rt.stdin(), rt.stdout(), &mut lines, |case, out| {
        answer(
            case, &mut nums, &mut wides, &mut ptrs, &mut cols, &mut vals, &mut text, out,
        )
    });
}

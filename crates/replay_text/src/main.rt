// Replays cases of the report: reads texts from standard input, one a line, and prints for each what the
// report has, or its refusal, and whether the lent memory is as it was. FORMAT.md says how a text is written.
#![tactic(auto)]

use calls_text::said;
use cases::input::replay;
use cases_text::form::{LINES, TEXT};
use cases_text::memory::SHOWN;

// The memory that outlives a case is made here, once.
fn main(rt: HostRuntime) {
    let mut lines = [0u8; LINES];
    let mut text = [0u8; TEXT];
    let mut shown = [0u8; SHOWN];
    replay(rt.stdin(), rt.stdout(), &mut lines, |line, out| {
        said(line, &mut text, &mut shown, out)
    });
}

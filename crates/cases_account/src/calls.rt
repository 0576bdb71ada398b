// The account check with the words of a line, and its answer.
use crate::memory::{LONG, NUMBERS, PLACES, POINTERS};
use answers::Out;
use cases::memory::lend;
use cases::table::{Case, Row, read_case};
use checking::check_account;
use sparse::Refusal;

// The word that is dense memory.
const DENSE: usize = 14;

// The call, with the letters of its words.
const TABLE: [Row<()>; 1] = [Row((), "check_account", "nnnplllllpllpll")];

// Answers the line where it is an account: lends dense memory as the line gives it, judges, and puts the verdict
// and dense memory.
pub fn said(
    line: &[u8],
    nums: &mut [u32; NUMBERS],
    wides: &mut [usize; POINTERS],
    dense: &mut [u32; PLACES],
    out: &mut Out,
) -> Option<()> {
    let case = read_case(line, &TABLE, LONG, nums, wides)?;
    let given = case.list(DENSE);
    if given.len() > PLACES {
        return None;
    }
    let dense = lend(given, dense);
    put_verdict(out, judged(&case, dense));
    out.put_list(dense);
    Some(())
}

// Judges the account that the words are.
fn judged(case: &Case<()>, dense: &mut [u32]) -> Result<bool, Refusal> {
    check_account(
        case.modulus(),
        case.matrix(),
        case.list(6),
        case.list(7),
        case.list(8),
        case.pointers(9),
        case.list(10),
        case.list(11),
        case.pointers(12),
        case.list(13),
        dense,
    )
}

fn put_verdict(out: &mut Out, verdict: Result<bool, Refusal>) {
    match verdict {
        Ok(true) => out.put(b"yes"),
        Ok(false) => out.put(b"no"),
        Err(why) => out.put_refused(why),
    }
}

// Cases of the calls that are lent nothing: of numbers, the tests, and `is_one`.
#![tactic(auto)]

mod calls;

use answers::Out;
use calls::Call;
use cases::table::{Row, has_call, read_case};
use words::LONG;

// The calls, each with the letters of its words.
const TABLE: [Row<Call>; 6] = [
    Row(Call::Prime, "prime", "n"),
    Row(Call::Inverse, "inverse", "nn"),
    Row(Call::Csr, "csr", "nnnpll"),
    Row(Call::Clean, "clean", "nnnpll"),
    Row(Call::Vector, "vector", "nnll"),
    Row(Call::IsOne, "is_one", "nnnpll"),
];

pub fn has(line: &[u8]) -> bool {
    has_call(line, &TABLE)
}

// Answers the line where it is a case of one of these calls.
pub fn said(line: &[u8], nums: &mut [u32], wides: &mut [usize], out: &mut Out) -> Option<()> {
    let case = read_case(line, &TABLE, LONG, nums, wides)?;
    calls::told(&case, out);
    Some(())
}

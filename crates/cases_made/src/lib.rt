// Cases of the calls that make a matrix. Their last three words are the lent memory.
#![tactic(auto)]

mod calls;

use answers::Out;
use calls::Call;
use cases::memory::lend;
use cases::table::{Row, has_call, read_case};
use words::LONG;

// The calls, each with the letters of its words.
const TABLE: [Row<Call>; 7] = [
    Row(Call::Triplets, "triplets", "nnnlllpll"),
    Row(Call::AppendIdentity, "append_identity", "nnnpllpll"),
    Row(Call::AppendCol, "append_col", "nnnpllnllpll"),
    Row(Call::Append, "append", "nnnpllnnpllpll"),
    Row(Call::AddRow, "add_row", "nnnpllllpll"),
    Row(Call::TakeRevRightHalf, "take_rev_right_half", "nnnpllpll"),
    Row(Call::SortRowsByPivot, "sort_rows_by_pivot", "nnnplllpll"),
];

pub fn has(line: &[u8]) -> bool {
    has_call(line, &TABLE)
}

// Answers the line where it is a case of one of these calls: lends the memory, calls, and puts the answer and
// the memory.
pub fn said(
    line: &[u8],
    nums: &mut [u32],
    wides: &mut [usize],
    ptrs: &mut [usize],
    cols: &mut [u32],
    vals: &mut [u32],
    out: &mut Out,
) -> Option<()> {
    let case = read_case(line, &TABLE, LONG, nums, wides)?;
    let lent = case.words.checked_sub(3)?;
    let ptrs = lend(case.pointers(lent), ptrs);
    let cols = lend(case.list(lent + 1), cols);
    let vals = lend(case.list(lent + 2), vals);
    out.put_built(calls::build(&case, ptrs, cols, vals));
    out.put_list(ptrs);
    out.put_list(cols);
    out.put_list(vals);
    Some(())
}

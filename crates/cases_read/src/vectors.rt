// The calls that are lent a vector, which is their last two words.
use answers::Out;
use cases::memory::lend;
use cases::table::{Case, Row, has_call, read_case};
use readers::LastRow;
use sparse::Refusal;
use words::LONG;

#[derive(Clone, Copy)]
enum Call {
    Row,
    Column,
    ColumnRev,
    ColumnByPivot,
}

// The calls, each with the letters of its words.
const TABLE: [Row<Call>; 4] = [
    Row(Call::Row, "last_row", "nnnpllll"),
    Row(Call::Column, "last_column", "nnnpllll"),
    Row(Call::ColumnRev, "last_column_rev", "nnnpllll"),
    Row(Call::ColumnByPivot, "last_column_by_pivot", "nnnplllll"),
];

pub fn has(line: &[u8]) -> bool {
    has_call(line, &TABLE)
}

// Answers the line where it is a case of one of these calls: lends the memory, calls, and puts the answer and
// the memory.
pub fn said(
    line: &[u8],
    nums: &mut [u32],
    wides: &mut [usize],
    idcs: &mut [u32],
    vals: &mut [u32],
    out: &mut Out,
) -> Option<()> {
    let case = read_case(line, &TABLE, LONG, nums, wides)?;
    let lent = case.words.checked_sub(2)?;
    let idcs = lend(case.list(lent), idcs);
    let vals = lend(case.list(lent + 1), vals);
    put_found(&case, idcs, vals, out);
    out.put_list(idcs);
    out.put_list(vals);
    Some(())
}

// Calls, and puts the answer.
fn put_found(case: &Case<Call>, idcs: &mut [u32], vals: &mut [u32], out: &mut Out) {
    match case.call {
        Call::Row => put_row(out, last_row(case, idcs, vals)),
        Call::Column => out.put_built(last_column(case, idcs, vals)),
        Call::ColumnRev => out.put_built(last_column_rev(case, idcs, vals)),
        Call::ColumnByPivot => out.put_built(last_column_by_pivot(case, idcs, vals)),
    }
}

fn last_row(
    case: &Case<Call>,
    idcs: &mut [u32],
    vals: &mut [u32],
) -> Result<Option<LastRow>, Refusal> {
    readers::last_row(case.modulus(), case.matrix(), idcs, vals)
}

fn last_column(case: &Case<Call>, idcs: &mut [u32], vals: &mut [u32]) -> Result<usize, Refusal> {
    lasts::last_column(case.modulus(), case.matrix(), idcs, vals)
}

fn last_column_rev(
    case: &Case<Call>,
    idcs: &mut [u32],
    vals: &mut [u32],
) -> Result<usize, Refusal> {
    lasts::last_column_rev(case.modulus(), case.matrix(), idcs, vals)
}

fn last_column_by_pivot(
    case: &Case<Call>,
    idcs: &mut [u32],
    vals: &mut [u32],
) -> Result<usize, Refusal> {
    lasts::last_column_by_pivot(case.modulus(), case.matrix(), case.list(6), idcs, vals)
}

fn put_row(out: &mut Out, found: Result<Option<LastRow>, Refusal>) {
    match found {
        Ok(None) => out.put(b"nothing"),
        Ok(Some(last)) => {
            out.put_count(b"row", last.row);
            out.put_count(b"", last.entries);
        }
        Err(why) => out.put_refused(why),
    }
}

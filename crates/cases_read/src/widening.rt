// `add_cols`, which is lent the columns that it moves.
use answers::Out;
use cases::memory::lend;
use cases::table::{Case, Row, has_call, read_case};
use sparse::Refusal;
use words::LONG;

// The call, with the letters of its words.
const TABLE: [Row<()>; 1] = [Row((), "add_cols", "nnnplll")];

pub fn has(line: &[u8]) -> bool {
    has_call(line, &TABLE)
}

// Answers the line where it is a case of `add_cols`: lends the columns, calls, and puts the answer and the
// columns.
pub fn said(
    line: &[u8],
    nums: &mut [u32],
    wides: &mut [usize],
    cols: &mut [u32],
    out: &mut Out,
) -> Option<()> {
    let case = read_case(line, &TABLE, LONG, nums, wides)?;
    let cols = lend(case.list(4), cols);
    put_widened(out, add_cols(&case, cols));
    out.put_list(cols);
    Some(())
}

fn add_cols(case: &Case<()>, cols: &mut [u32]) -> Result<u32, Refusal> {
    let m = case.matrix();
    columns::add_cols(
        case.modulus(),
        m.nrows,
        m.ncols,
        m.row_ptrs,
        cols,
        m.values,
        case.list(6),
    )
}

fn put_widened(out: &mut Out, found: Result<u32, Refusal>) {
    match found {
        Ok(ncols) => out.put_count(b"columns", ncols),
        Err(why) => out.put_refused(why),
    }
}

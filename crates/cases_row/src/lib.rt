// The calls that take one row.
#![tactic(auto)]

use answers::Out;
use cases::memory::lend;
use cases::table::{Case, Row, has_call, read_case};
use cases_rows::memory::{ENTRIES, PLACES, ROW_NUMBERS, ROW_POINTERS, counts, fits, put_memory};
use cases_rows::told::put_added;
use sparse::Refusal;
use state::Counts;
use stepping::Stepped;

#[derive(Clone, Copy)]
enum Call {
    AddRow,
    AddRowWithBackSubs,
}

// The calls, each with the letters of its words: the counts, the row, dense memory, U, L, pivots.
const TABLE: [Row<Call>; 2] = [
    Row(Call::AddRow, "reducer_add_row", "nnnwwwwlllllpllpl"),
    Row(
        Call::AddRowWithBackSubs,
        "reducer_add_row_with_back_subs",
        "nnnwwwwlllllpllpl",
    ),
];

pub fn has(line: &[u8]) -> bool {
    has_call(line, &TABLE)
}

// Answers the line where it is a case of one of these calls.
pub fn said(
    line: &[u8],
    nums: &mut [u32; ROW_NUMBERS],
    wides: &mut [usize; ROW_POINTERS],
    dense: &mut [u32; PLACES],
    u_cols: &mut [u32; ENTRIES],
    u_vals: &mut [u32; ENTRIES],
    u_ptrs: &mut [usize; PLACES],
    l_cols: &mut [u32; ENTRIES],
    l_vals: &mut [u32; ENTRIES],
    l_ptrs: &mut [usize; PLACES],
    pivots: &mut [u32; PLACES],
    out: &mut Out,
) -> Option<()> {
    let case = read_case(line, &TABLE, ENTRIES, nums, wides)?;
    let counts = counts(&case)?;
    if !fits(&case, 9, 10) {
        return None;
    }
    lent(
        &case, counts, dense, u_cols, u_vals, u_ptrs, l_cols, l_vals, l_ptrs, pivots, out,
    );
    Some(())
}

// Lends the memory.
fn lent(
    case: &Case<Call>,
    counts: Counts,
    dense: &mut [u32],
    u_cols: &mut [u32],
    u_vals: &mut [u32],
    u_ptrs: &mut [usize],
    l_cols: &mut [u32],
    l_vals: &mut [u32],
    l_ptrs: &mut [usize],
    pivots: &mut [u32],
    out: &mut Out,
) {
    let dense = lend(case.list(9), dense);
    let u_cols = lend(case.list(10), u_cols);
    let u_vals = lend(case.list(11), u_vals);
    let u_ptrs = lend(case.pointers(12), u_ptrs);
    let l_cols = lend(case.list(13), l_cols);
    let l_vals = lend(case.list(14), l_vals);
    let l_ptrs = lend(case.pointers(15), l_ptrs);
    let pivots = lend(case.list(16), pivots);
    taken(
        case, counts, dense, u_cols, u_vals, u_ptrs, l_cols, l_vals, l_ptrs, pivots, out,
    );
}

// Calls, and puts the answer and the memory.
fn taken(
    case: &Case<Call>,
    counts: Counts,
    dense: &mut [u32],
    u_cols: &mut [u32],
    u_vals: &mut [u32],
    u_ptrs: &mut [usize],
    l_cols: &mut [u32],
    l_vals: &mut [u32],
    l_ptrs: &mut [usize],
    pivots: &mut [u32],
    out: &mut Out,
) {
    let added = add(
        case, counts, dense, u_cols, u_vals, u_ptrs, l_cols, l_vals, l_ptrs, pivots,
    );
    put_added(out, added);
    out.put_list(dense);
    put_memory(out, u_cols, u_vals, u_ptrs, l_cols, l_vals, l_ptrs, pivots);
}

// The call of either walk.
fn add(
    case: &Case<Call>,
    counts: Counts,
    dense: &mut [u32],
    u_cols: &mut [u32],
    u_vals: &mut [u32],
    u_ptrs: &mut [usize],
    l_cols: &mut [u32],
    l_vals: &mut [u32],
    l_ptrs: &mut [usize],
    pivots: &mut [u32],
) -> Result<Stepped, Refusal> {
    let cols = case.list(7);
    let vals = case.list(8);
    match case.call {
        Call::AddRow => adding::add_row(
            counts, cols, vals, dense, u_cols, u_vals, u_ptrs, l_cols, l_vals, l_ptrs, pivots,
        ),
        Call::AddRowWithBackSubs => adding::add_row_with_back_subs(
            counts, cols, vals, dense, u_cols, u_vals, u_ptrs, l_cols, l_vals, l_ptrs, pivots,
        ),
    }
}

// Cases of determinants, which lend dense memory and a reducer's.
#![tactic(auto)]

use answers::Out;
use calls_det::determined;
use cases::memory::lend;
use cases::table::{Case, Row, has_call, read_case};
use cases_reduced::{ENTRIES, NUMBERS};
use cases_rows::memory::{PLACES, ROW_POINTERS, fits};

// The call, with the letters of its words: the modulus, the matrix, dense memory, U, L, pivots.
const TABLE: [Row<()>; 1] = [Row((), "det", "nnnplllllpllpl")];

pub fn has(line: &[u8]) -> bool {
    has_call(line, &TABLE)
}

// Answers the line where it is a case of this call.
pub fn said(
    line: &[u8],
    nums: &mut [u32; NUMBERS],
    wides: &mut [usize; ROW_POINTERS],
    dense: &mut [u32; PLACES],
    u_cols: &mut [u32; ENTRIES],
    u_vals: &mut [u32; ENTRIES],
    u_ptrs: &mut [usize; PLACES],
    l_cols: &mut [u32; ENTRIES],
    l_vals: &mut [u32; ENTRIES],
    l_ptrs: &mut [usize; PLACES],
    pivots: &mut [u32; PLACES],
    out: &mut Out,
) -> Option<()> {
    let case = read_case(line, &TABLE, ENTRIES, nums, wides)?;
    if !fits(&case, 6, 7) {
        return None;
    }
    lent(
        &case, dense, u_cols, u_vals, u_ptrs, l_cols, l_vals, l_ptrs, pivots, out,
    );
    Some(())
}

// Lends the memory.
fn lent(
    case: &Case<()>,
    dense: &mut [u32],
    u_cols: &mut [u32],
    u_vals: &mut [u32],
    u_ptrs: &mut [usize],
    l_cols: &mut [u32],
    l_vals: &mut [u32],
    l_ptrs: &mut [usize],
    pivots: &mut [u32],
    out: &mut Out,
) {
    let dense = lend(case.list(6), dense);
    let u_cols = lend(case.list(7), u_cols);
    let u_vals = lend(case.list(8), u_vals);
    let u_ptrs = lend(case.pointers(9), u_ptrs);
    let l_cols = lend(case.list(10), l_cols);
    let l_vals = lend(case.list(11), l_vals);
    let l_ptrs = lend(case.pointers(12), l_ptrs);
    let pivots = lend(case.list(13), pivots);
    determined(
        case, dense, u_cols, u_vals, u_ptrs, l_cols, l_vals, l_ptrs, pivots, out,
    );
}

// The families of the reducer's calls. Each is asked in turn whether the case is one of its own.
use answers::Out;
use cases_rows::memory::{ENTRIES, PLACES, ROW_NUMBERS, ROW_POINTERS};

// Answers the case, where it is one.
pub fn answer(
    case: &[u8],
    nums: &mut [u32; ROW_NUMBERS],
    wides: &mut [usize; ROW_POINTERS],
    dense: &mut [u32; PLACES],
    answers: &mut [u32; PLACES],
    u_cols: &mut [u32; ENTRIES],
    u_vals: &mut [u32; ENTRIES],
    u_ptrs: &mut [usize; PLACES],
    l_cols: &mut [u32; ENTRIES],
    l_vals: &mut [u32; ENTRIES],
    l_ptrs: &mut [usize; PLACES],
    pivots: &mut [u32; PLACES],
    out: &mut Out,
) -> Option<()> {
    if cases_fresh::has(case) {
        cases_fresh::said(case, nums, wides, u_ptrs, l_ptrs, pivots, out)
    } else if cases_row::has(case) {
        cases_row::said(
            case, nums, wides, dense, u_cols, u_vals, u_ptrs, l_cols, l_vals, l_ptrs, pivots, out,
        )
    } else {
        cases_matrix::said(
            case, nums, wides, dense, answers, u_cols, u_vals, u_ptrs, l_cols, l_vals, l_ptrs,
            pivots, out,
        )
    }
}

// The families of the calls on what a reducer has. Each is asked in turn whether the case is one of its own.
use answers::Out;
use cases_reduced::{ENTRIES, NUMBERS};
use cases_rows::memory::{PLACES, ROW_POINTERS};

// Answers the case, where it is one. A second U has U's memory: the
// call is given U as the line has it.
pub fn answer(
    case: &[u8],
    nums: &mut [u32; NUMBERS],
    wides: &mut [usize; ROW_POINTERS],
    dense: &mut [u32; PLACES],
    u_cols: &mut [u32; ENTRIES],
    u_vals: &mut [u32; ENTRIES],
    u_ptrs: &mut [usize; PLACES],
    l_cols: &mut [u32; ENTRIES],
    l_vals: &mut [u32; ENTRIES],
    l_ptrs: &mut [usize; PLACES],
    pivots: &mut [u32; PLACES],
    out: &mut Out,
) -> Option<()> {
    if cases_wide::has(case) {
        cases_wide::said(case, nums, wides, u_cols, pivots, out)
    } else if cases_back::has(case) {
        cases_back::said(
            case, nums, wides, dense, u_cols, u_vals, u_ptrs, pivots, out,
        )
    } else {
        cases_det::said(
            case, nums, wides, dense, u_cols, u_vals, u_ptrs, l_cols, l_vals, l_ptrs, pivots, out,
        )
    }
}

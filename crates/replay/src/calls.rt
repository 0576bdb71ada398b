// The families of calls. Each is asked in turn whether the case is one of its own.
use answers::Out;
use cases_read::{texts, vectors, widening};
use words::{LONG, NUMBERS, POINTERS};

// Answers the case, where it is one.
pub fn answer(
    case: &[u8],
    nums: &mut [u32; NUMBERS],
    wides: &mut [usize; POINTERS],
    ptrs: &mut [usize; LONG],
    cols: &mut [u32; LONG],
    vals: &mut [u32; LONG],
    text: &mut [u8; LONG],
    out: &mut Out,
) -> Option<()> {
    if cases_told::has(case) {
        cases_told::said(case, nums, wides, out)
    } else if cases_made::has(case) {
        cases_made::said(case, nums, wides, ptrs, cols, vals, out)
    } else if vectors::has(case) {
        vectors::said(case, nums, wides, cols, vals, out)
    } else if widening::has(case) {
        widening::said(case, nums, wides, cols, out)
    } else {
        texts::said(case, nums, wides, text, out)
    }
}

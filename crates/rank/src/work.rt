// The memory that the report works in, on the stack: some 260 KiB with the output.

// The most rows, and the most columns.
use sparse::Refusal;

const SIDE: usize = 64;

// Pointers of so many rows.
const POINTERS: usize = 65;

// The most entries of the matrix.
const ENTRIES: usize = 1024;

// The most entries of U, and of L.
const FILLED: usize = 4096;

// The output: at most 40 bytes for an entry of U.
pub const OUT: usize = 163840;

pub fn report(text: &[u8], out: &mut [u8; OUT]) -> Result<usize, Refusal> {
    let mut row_ptrs = [0usize; POINTERS];
    let mut col_idcs = [0u32; ENTRIES];
    let mut values = [0u32; ENTRIES];
    let mut dense = [0u32; SIDE];
    let mut answers = [0u32; SIDE];
    let mut u_cols = [0u32; FILLED];
    let mut u_vals = [0u32; FILLED];
    let mut u_ptrs = [0usize; POINTERS];
    let mut l_cols = [0u32; FILLED];
    let mut l_vals = [0u32; FILLED];
    let mut l_ptrs = [0usize; POINTERS];
    let mut pivots = [0u32; SIDE];
    report::report(
        text,
        &mut row_ptrs,
        &mut col_idcs,
        &mut values,
        &mut dense,
        &mut answers,
        &mut u_cols,
        &mut u_vals,
        &mut u_ptrs,
        &mut l_cols,
        &mut l_vals,
        &mut l_ptrs,
        &mut pivots,
        out,
    )
}

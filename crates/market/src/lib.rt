// Matrix Market text, as document 01 cuts it: read, tested, and its entries written to lent memory.
//
// The inside of the library. A place in the text goes in, and the place after what was read comes back.
#![tactic(auto)]

pub mod lines;
pub mod tests;

// The longest text that is read.
pub const MAX_TEXT: usize = 32768;

// The most rows, and the most columns.
pub const MAX_SIDE: u64 = 64;

// The most entries.
pub const MAX_ENTRIES: u64 = 1024;

// The modulus, 2^31 - 1.
pub const MODULUS: u32 = 2147483647;

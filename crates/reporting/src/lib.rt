// The phases of a report: the matrix of a text is loaded, and rank, determinant and U are written, a
// line each. The inside of the library.
#![tactic(auto)]

pub mod lines;
pub mod load;

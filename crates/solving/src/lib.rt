// The determinant, rank and U of a matrix, in lent memory. The inside of the library.
#![tactic(auto)]

pub mod solve;

use state::Counts;

// The determinant, None where the matrix isn't square, and the counts of the reduction whose U is in the lists.
#[derive(Clone, Copy)]
pub struct Solved {
    pub det: Option<u32>,
    pub counts: Counts,
}

// What is moved in a matrix, to separate lent memory: its rows into the order of a pivot table; its right half,
// the rows reversed.
#![tactic(auto)]

mod halves;
mod sorted;

pub use halves::take_rev_right_half;
pub use sorted::sort_rows_by_pivot;

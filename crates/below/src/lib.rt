// What is joined below a matrix: another matrix, a row, to separate lent memory.
#![tactic(auto)]

mod matrices;
mod rows;
mod single;

pub use matrices::append;
pub use single::add_row;

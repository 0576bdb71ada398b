// What is joined beside a matrix: a column, the identity, to separate lent memory.
#![tactic(auto)]

mod column;
mod identity;

pub use column::append_col;
pub use identity::append_identity;

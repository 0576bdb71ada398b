// The last column of a matrix as a vector, indexed by row, by row from the last up, or by pivot
// column.
#![tactic(auto)]

mod columns;
mod gather;

pub use columns::{last_column, last_column_by_pivot, last_column_rev};

// A single row added to a reducer.
//
// A reducer is its record of counts and the lent lists u_cols, u_vals, u_ptrs, l_cols, l_vals, l_ptrs,
// pivots. The row is cols and vals; dense is lent memory of at least a place for each column.
#![tactic(auto)]

pub mod inside;
mod rows;

pub use rows::{add_row, add_row_with_back_subs};

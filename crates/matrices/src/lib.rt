// Many rows added to a reducer.
//
// A reducer is its record of counts and the lent lists u_cols, u_vals, u_ptrs, l_cols, l_vals, l_ptrs,
// pivots. The rows are a matrix; answers gets a number for each row that is taken, its pivot column or
// telling::NONE; dense is lent memory of at least a place for each column.
#![tactic(auto)]

mod calls;
mod tests;

pub use calls::{add_matrix, add_matrix_with_back_subs};

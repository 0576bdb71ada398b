// All rows of a matrix taken by a reducer. The inside of the reducer.
//
// A reducer is its record of counts and the lent lists u_cols, u_vals, u_ptrs, l_cols, l_vals, l_ptrs,
// pivots. The rows are a matrix; answers gets a number for each row that is taken, as far as it has
// places; dense is lent memory of at least a place for each column.
#![tactic(auto)]

pub mod rows;
pub mod tests;

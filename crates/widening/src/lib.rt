// Columns inserted in a reducer, in place.
//
// A reducer is its record of counts and the lent lists u_cols, u_vals, u_ptrs, l_cols, l_vals, l_ptrs,
// pivots. Position q puts a new column before old column q.
#![tactic(auto)]

mod places;

pub use places::add_cols;

// One row against U: the inside of the reducer. U is (u_cols, u_vals, u_ptrs), its heads' rows are in
// pivots, and dense holds the row that is reduced, a value for each column.
#![tactic(auto)]

pub mod climb;
pub mod kernels;

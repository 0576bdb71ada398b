// One row of an account: its answer and its L row against U. The inside of the account check.
//
// U is (ncols, u_cols, u_vals, u_ptrs), an L row is (l_cols, l_vals), the row is (cols, vals), and
// `earlier` is how many rows were accepted before it.
#![tactic(auto)]

pub mod entries;
pub mod products;
pub mod rows;

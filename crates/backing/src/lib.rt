// Back substitution of a reducer: its rows, reduced, are written to a second U.
//
// A reducer is its record of counts and the lent lists u_cols, u_vals, u_ptrs, l_cols, l_vals, l_ptrs,
// pivots. The second U is lent as back_cols, back_vals, back_ptrs; the pivot table becomes its table.
#![tactic(auto)]

mod back;
mod rows;

pub use back::back_substitute;

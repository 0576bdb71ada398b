// The library call of the program: a Matrix Market text in, rank, determinant and U out.
//
// The matrix is lent row_ptrs, col_idcs, values; the reducer u_cols, u_vals, u_ptrs, l_cols, l_vals,
// l_ptrs, pivots; dense and answers are memory that it works in; out gets the text.
#![tactic(auto)]

mod calls;
mod rooms;

pub use calls::report;

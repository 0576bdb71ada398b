// A reducer made from a matrix.
//
// A reducer is its record of counts and the lent lists u_cols, u_vals, u_ptrs, l_cols, l_vals, l_ptrs,
// pivots. The rows are a matrix; answers gets a number for each row that is taken, its pivot column or
// telling::NONE; dense is lent memory of at least a place for each column.
#![tactic(auto)]

mod calls;

pub use calls::{
    from_matrix, from_matrix_check_dependent, from_matrix_check_dependent_with_back_subs,
    from_matrix_with_back_subs,
};

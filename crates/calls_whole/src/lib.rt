// The calls that take all rows of a matrix, with the words of a case. `on` says that a walk goes on after
// its pivot. Nothing is answered where a word that is to be a mode's number is none.
#![tactic(auto)]

use cases::table::Case;
use cases_rows::memory::{counts, mode};
use telling::Reduced;

// Into a reducer, whose counts are the first seven words.
pub fn added<C: Copy>(
    on: bool,
    case: &Case<C>,
    dense: &mut [u32],
    answers: &mut [u32],
    u_cols: &mut [u32],
    u_vals: &mut [u32],
    u_ptrs: &mut [usize],
    l_cols: &mut [u32],
    l_vals: &mut [u32],
    l_ptrs: &mut [usize],
    pivots: &mut [u32],
) -> Option<Reduced> {
    let counts = counts(case)?;
    let matrix = case.matrix_at(7);
    Some(if on {
        matrices::add_matrix_with_back_subs(
            counts, matrix, dense, answers, u_cols, u_vals, u_ptrs, l_cols, l_vals, l_ptrs, pivots,
        )
    } else {
        matrices::add_matrix(
            counts, matrix, dense, answers, u_cols, u_vals, u_ptrs, l_cols, l_vals, l_ptrs, pivots,
        )
    })
}

// Into a fresh reducer: the modulus and the mode are the first two words.
pub fn made<C: Copy>(
    on: bool,
    case: &Case<C>,
    dense: &mut [u32],
    answers: &mut [u32],
    u_cols: &mut [u32],
    u_vals: &mut [u32],
    u_ptrs: &mut [usize],
    l_cols: &mut [u32],
    l_vals: &mut [u32],
    l_ptrs: &mut [usize],
    pivots: &mut [u32],
) -> Option<Reduced> {
    let p = case.number(0);
    let mode = mode(case, 1)?;
    let matrix = case.matrix_at(2);
    Some(if on {
        anew::from_matrix_with_back_subs(
            p, mode, matrix, dense, answers, u_cols, u_vals, u_ptrs, l_cols, l_vals, l_ptrs, pivots,
        )
    } else {
        anew::from_matrix(
            p, mode, matrix, dense, answers, u_cols, u_vals, u_ptrs, l_cols, l_vals, l_ptrs, pivots,
        )
    })
}

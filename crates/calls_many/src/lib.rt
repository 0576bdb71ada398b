// The calls that take the rows of a matrix.
#![tactic(auto)]

use calls_whole::{added, made};
use cases::table::Case;
use cases_rows::memory::mode;
use telling::Reduced;

// The calls: into a reducer, into a fresh one, and that up to the first None. `on` says that the walk goes on
// after its pivot.
#[derive(Clone, Copy)]
pub enum Call {
    AddMatrix { on: bool },
    FromMatrix { on: bool },
    CheckDependent { on: bool },
}

// Nothing where the word that is to be a mode's number is none.
pub fn reduce(
    case: &Case<Call>,
    dense: &mut [u32],
    answers: &mut [u32],
    u_cols: &mut [u32],
    u_vals: &mut [u32],
    u_ptrs: &mut [usize],
    l_cols: &mut [u32],
    l_vals: &mut [u32],
    l_ptrs: &mut [usize],
    pivots: &mut [u32],
) -> Option<Reduced> {
    match case.call {
        Call::AddMatrix { on } => added(
            on, case, dense, answers, u_cols, u_vals, u_ptrs, l_cols, l_vals, l_ptrs, pivots,
        ),
        Call::FromMatrix { on } => made(
            on, case, dense, answers, u_cols, u_vals, u_ptrs, l_cols, l_vals, l_ptrs, pivots,
        ),
        Call::CheckDependent { on } => checked(
            on, case, dense, answers, u_cols, u_vals, u_ptrs, l_cols, l_vals, l_ptrs, pivots,
        ),
    }
}

// Into a fresh reducer, up to the first None.
fn checked(
    on: bool,
    case: &Case<Call>,
    dense: &mut [u32],
    answers: &mut [u32],
    u_cols: &mut [u32],
    u_vals: &mut [u32],
    u_ptrs: &mut [usize],
    l_cols: &mut [u32],
    l_vals: &mut [u32],
    l_ptrs: &mut [usize],
    pivots: &mut [u32],
) -> Option<Reduced> {
    let mode = mode(case, 1)?;
    let p = case.number(0);
    let matrix = case.matrix_at(2);
    Some(if on {
        anew::from_matrix_check_dependent_with_back_subs(
            p, mode, matrix, dense, answers, u_cols, u_vals, u_ptrs, l_cols, l_vals, l_ptrs, pivots,
        )
    } else {
        anew::from_matrix_check_dependent(
            p, mode, matrix, dense, answers, u_cols, u_vals, u_ptrs, l_cols, l_vals, l_ptrs, pivots,
        )
    })
}

// The account check: whether rows, their answers, U, L and pivots fit together.
#![tactic(auto)]

pub mod calls;
pub mod rows;
mod tests;

pub use calls::check_account;

// Cases of the account check. A line is an account: the modulus, the rows, their answers, U, L and the
// pivots, all read only, and dense memory, which is lent.
#![tactic(auto)]

mod calls;
pub mod memory;

pub use calls::said;

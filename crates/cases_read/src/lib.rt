// Cases of the calls that are lent a vector, the columns or a text.
#![tactic(auto)]

pub mod texts;
pub mod vectors;
pub mod widening;

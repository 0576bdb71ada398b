// Cases of the report: texts in lines, and lent lists. What a line means is tested, not proved: what is proved is
// that every function is safe and ends.
#![tactic(auto)]

pub mod form;
pub mod memory;

// What the cases of the reducer's calls that take rows have in common. Each line gives all memory of a
// reducer, so that nothing is kept from one line to the next.
#![tactic(auto)]

pub mod memory;
pub mod told;

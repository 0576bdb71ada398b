// The tests of a matrix and of what is joined to it. The inside of the library, for the calls that join a column or a row.
#![tactic(auto)]

pub mod inside;

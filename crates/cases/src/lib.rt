// Cases: the lines of the input, the words of a case by its call's row of a table, and the lent lists.
// The form is that of replay's FORMAT.md; a program lends all memory, and each family of calls is a
// crate that reads its cases and puts its answers. What a text means is tested, not proved: what is
// proved is that every function is safe and ends.
#![tactic(auto)]

pub mod input;
pub mod memory;
pub mod table;

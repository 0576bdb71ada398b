// Pivot tables as they are lent: for each column a row, or the mark. The inside of the library.
#![tactic(auto)]

pub mod inside;

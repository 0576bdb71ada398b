// Writing a matrix row by row to lent memory. The inside of the library, for the calls that make a matrix: its functions
// ask of their arguments what those calls have tested.
#![tactic(auto)]

pub mod inside;

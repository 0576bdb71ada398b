// Columns inserted in a matrix, in place.
#![tactic(auto)]

pub mod positions;

pub use positions::add_cols;

// The determinant's value from L and the pivot table. The inside of the determinant.
#![tactic(auto)]

mod inversions;
mod lasts;
pub mod values;

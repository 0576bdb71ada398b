// What a walk has left in dense memory, written to U and L. The inside of the reducer.
#![tactic(auto)]

pub mod gathers;
pub mod lower;
pub mod upper;

// What is gathered: of L the pivots' rows, or the multiples; of U the columns.
#[derive(Clone, Copy)]
pub enum Part {
    Row,
    Multiple,
    Column,
}

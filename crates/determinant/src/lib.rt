// The determinant of a square matrix, by a reduction in lent memory.
//
// A reducer is its record of counts and the lent lists u_cols, u_vals, u_ptrs, l_cols, l_vals, l_ptrs,
// pivots; dense is lent memory of at least a place for each column.
#![tactic(auto)]

mod calls;

pub use calls::det;
use sparse::Refusal;
use telling::{Run, Stop};

// A determinant, and the rows that were taken for it.
#[derive(Clone, Copy)]
pub struct Valued {
    pub value: u32,
    pub run: Run,
}

// What asking for a determinant answers: its value; that it ended at a row for want of room, and the
// rows before stay; or why it was refused, and everything is as it came.
#[derive(Clone, Copy)]
pub enum Determined {
    Value(Valued),
    Stopped(Stop),
    Refused(Refusal),
}

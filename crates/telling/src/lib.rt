// What rows are answered: one row's number, and what a call of many rows comes to.
#![tactic(auto)]

pub mod answers;

use sparse::Refusal;
use state::Counts;

// What answer memory gets for a row that is answered None.
pub const NONE: u32 = 4294967295;

// How many rows were taken, and the counts after them.
#[derive(Clone, Copy)]
pub struct Run {
    pub taken: u32,
    pub counts: Counts,
}

// Why a call ended at a row, and the rows before it.
#[derive(Clone, Copy)]
pub struct Stop {
    pub why: Refusal,
    pub run: Run,
}

// What a call of many rows answers: all were taken; it ended at a None, which is counted; it ended for
// want of room, and the rows before stay; or it was refused, and everything is as it came.
#[derive(Clone, Copy)]
pub enum Reduced {
    Taken(Run),
    Dependent(Run),
    Stopped(Stop),
    Refused(Refusal),
}

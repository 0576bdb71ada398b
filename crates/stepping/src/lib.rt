// One row taken by a reducer that is a state: steps 1 to 4. The inside of the reducer.
#![tactic(auto)]

pub mod rows;

use state::Counts;

// A row's answer, the column where it was accepted or None, and the counts afterwards.
#[derive(Clone, Copy)]
pub struct Stepped {
    pub answer: Option<u32>,
    pub counts: Counts,
}

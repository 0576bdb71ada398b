// One row taken: walked, and what is left of it stored in U and L. The inside of the reducer.
#![tactic(auto)]

pub mod rows;
pub mod stores;

// What a walk comes to: the column of the head, or the column count where the row is a combination;
// and how many entries U and L got.
#[derive(Clone, Copy)]
pub struct Walked {
    pub head: usize,
    pub u_len: usize,
    pub l_len: usize,
}

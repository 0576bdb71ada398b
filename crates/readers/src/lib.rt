// What a matrix holds: its last row, and whether it is the identity.
#![tactic(auto)]

mod identity;
pub mod inside;
mod rows;

pub use identity::is_one;
pub use rows::last_row;

// The last row's number, and how many entries it has.
#[derive(Clone, Copy)]
pub struct LastRow {
    pub row: u32,
    pub entries: usize,
}

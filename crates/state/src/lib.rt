// The reducer's memory: its record of counts, when it is a state, its room and its fresh start.
//
// The lists of a reducer are lent in this order: u_cols, u_vals, u_ptrs, l_cols, l_vals, l_ptrs,
// pivots. Row r of U has the entries from u_ptrs[r] up to u_ptrs[r + 1], and so has L.
#![tactic(auto)]

pub mod inside;
pub mod multipliers;
mod rows;
pub mod start;

pub use start::new;

// What is kept of L: columns and values, columns alone, or nothing.
#[derive(Clone, Copy)]
pub enum Mode {
    Full,
    Pattern,
    None,
}

// The record of counts: rank is the number of U's rows, the fills are the entries of U and L.
#[derive(Clone, Copy)]
pub struct Counts {
    pub mode: Mode,
    pub modulus: u32,
    pub ncols: u32,
    pub rank: usize,
    pub u_fill: usize,
    pub l_rows: usize,
    pub l_fill: usize,
}

// A matrix or a vector as text.
#![tactic(auto)]

pub mod inside;
mod mma;

pub use mma::{fmt_mma, fmt_mma_vector};

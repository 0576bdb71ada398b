// Residues modulo a prime: u32 residues, u64 products. The inside of the library: operands are
// asked to be residues already, and the public calls above test that they are.
#![tactic(auto)]

pub mod inverse;
pub mod prime;
pub mod residue;

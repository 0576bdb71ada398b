// Compressed matrices and vectors over lent slices, and their tests.
//
// A matrix is a `Matrix`, a vector (len, idcs, values). The modulus p stands first in every call.
#![tactic(auto)]

ghost use Rattle.std.specs.Prelude.{◌≡◌, ◌++◌, Some, codes, decimal};
ghost use Rattle.sparse.specs.Refusals.{number};

use std::error::Error;
use std::fmt;

pub mod inside;
mod tests;

pub use tests::{try_from_csr, try_from_csr_clean, try_from_csr_vector};

// The most rows, and the most columns, of a matrix.
pub const MAX_SIDE: u32 = 1024;

// The most entries of a matrix or vector.
pub const MAX_ENTRIES: usize = 65536;

// A matrix over lent slices: row i has the entries from row_ptrs[i] up to row_ptrs[i + 1].
#[derive(Clone, Copy)]
pub struct Matrix<'a> {
    pub nrows: u32,
    pub ncols: u32,
    pub row_ptrs: &'a [usize],
    pub col_idcs: &'a [u32],
    pub values: &'a [u32],
}

// Why a call is refused, by its number in the table: of several the lowest is given.
#[derive(Clone, Copy, Debug, PartialEq, Eq)]
pub enum Refusal {
    Modulus = 1,
    Size = 2,
    Shape = 3,
    Pointer = 4,
    Column = 5,
    Value = 6,
    Zero = 7,
    Outside = 8,
    Order = 9,
    NotSquare = 10,
    Mismatch = 11,
    Positions = 12,
    State = 13,
    Room = 14,
    Text = 15,
}

impl From<Refusal> for u32 {
    ghost from_gives = { λ why n. n ≡ number why };

    fn from(why: Refusal) -> u32 {
        why as u32
    }
}

impl fmt::Display for Refusal {
    ghost output = { λ why. Some (codes "refused " ++ decimal (number why)) };

    fn fmt<W: fmt::Write>(&self, f: &mut fmt::Formatter<W>) -> fmt::Result {
        write!(f, "refused {}", u32::from(*self))
    }
}

impl Error for Refusal {}

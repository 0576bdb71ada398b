// The public tests: of a matrix, of clean rows, of a vector.
ghost use Rattle.std.specs.Prelude.{◌≡◌};
ghost use Rattle.sparse.specs.Matrix.{seen};
ghost use Rattle.sparse.specs.Tests.{well_formed, clean, well_formed_vector};

use crate::inside::{
    Clause, clean_rows, columns_test, modulus_test, size_test, values_test, well_formed,
};
use crate::{MAX_ENTRIES, Matrix, Refusal};

// Ok where the matrix is well formed; else the lowest of 1 to 6 that applies.
pub fn try_from_csr(p: u32, matrix: Matrix) -> Result<(), Refusal>
    ensures { result ≡ well_formed 65536 p (seen matrix.entry) }
{
    well_formed(MAX_ENTRIES, p, matrix)
}

// Ok where the matrix is clean; else the lowest of 1 to 7 that applies.
pub fn try_from_csr_clean(p: u32, matrix: Matrix) -> Result<(), Refusal>
    ensures { result ≡ clean 65536 p (seen matrix.entry) }
{
    clean_rows(MAX_ENTRIES, p, matrix)
}

// Ok where the vector is well formed; else the lowest of 1, 2, 3, 5 and 6 that applies.
pub fn try_from_csr_vector(p: u32, len: u32, idcs: &[u32], values: &[u32]) -> Result<(), Refusal>
    ensures { result ≡ well_formed_vector 65536 p len idcs.now values.now }
{
    modulus_test(p)?;
    size_test(MAX_ENTRIES, 1, len, values.len())?;
    if idcs.len() != values.len() {
        return Err(Refusal::Shape);
    }
    columns_test(len, idcs)?;
    values_test(Clause::Residue, p, values)
}

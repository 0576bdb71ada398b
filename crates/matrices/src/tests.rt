// The tests of the rows that are added.
ghost use Rattle.std.specs.Prelude.{◌≡◌};
ghost use Rattle.sparse.specs.Matrix.{seen};
ghost use Rattle.sparse.specs.Refusals.{lowest};
ghost use Rattle.matrices.specs.Tests.{rows_tests};

use sparse::inside::{modulus_test, size_test};
use sparse::{MAX_ENTRIES, Matrix, Refusal, try_from_csr_clean};

// 1 to 7 of the record and the rows, and 11 where the column counts differ.
pub fn rows_test(p: u32, columns: u32, matrix: Matrix) -> Result<(), Refusal>
    ensures { result ≡ lowest (rows_tests p columns (seen matrix.entry)) }
{
    let Matrix { ncols, .. } = matrix;
    modulus_test(p)?;
    size_test(MAX_ENTRIES, 0, columns, 0)?;
    try_from_csr_clean(p, matrix)?;
    if columns != ncols {
        return Err(Refusal::Mismatch);
    }
    Ok(())
}

// The tests of lent memory for many rows.
ghost use Rattle.std.specs.Prelude.{◌≡◌};
ghost use Rattle.batches.specs.Tests.{short_test};

use sparse::Refusal;

// 11 of dense memory, the pivot table and answer memory.
pub fn short_test(
    nrows: u32,
    ncols: u32,
    dense: &[u32],
    answers: &[u32],
    pivots: &[u32],
) -> Result<(), Refusal>
    ensures { result ≡ short_test nrows ncols dense.now answers.now pivots.now }
{
    if dense.len() < ncols as usize {
        return Err(Refusal::Mismatch);
    }
    if pivots.len() < ncols as usize {
        return Err(Refusal::Mismatch);
    }
    if answers.len() < nrows as usize {
        return Err(Refusal::Mismatch);
    }
    Ok(())
}

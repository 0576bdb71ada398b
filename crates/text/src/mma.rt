// The public calls. Each counts the bytes first, by writing them to no memory, so that 14 is decided
// before anything is written.
ghost use Rattle.std.specs.Prelude.{◌≡◌};
ghost use Rattle.sparse.specs.Lent.{outcome};
ghost use Rattle.sparse.specs.Matrix.{seen};
ghost use Rattle.text.specs.Mma.{fmt_mma, fmt_mma_vector};

use crate::inside::{put_matrix, put_vector, room_test};
use sparse::{Matrix, Refusal, try_from_csr, try_from_csr_vector};

// {{{row,column}->value,..},{rows,columns}}, counting from 1.
pub fn fmt_mma(p: u32, matrix: Matrix, text: &mut [u8]) -> Result<usize, Refusal>
    ensures { outcome result text.new ≡ fmt_mma p (seen matrix.entry) text.old }
{
    try_from_csr(p, matrix)?;
    let bytes = put_matrix(matrix, &mut text[..0]);
    room_test(bytes, text.len())?;
    put_matrix(matrix, text);
    Ok(bytes)
}

// The same of a vector, as one column.
pub fn fmt_mma_vector(
    p: u32,
    len: u32,
    idcs: &[u32],
    values: &[u32],
    text: &mut [u8],
) -> Result<usize, Refusal>
    ensures { outcome result text.new ≡ fmt_mma_vector p len idcs.now values.now text.old }
{
    try_from_csr_vector(p, len, idcs, values)?;
    let bytes = put_vector(len, idcs, values, &mut text[..0]);
    room_test(bytes, text.len())?;
    put_vector(len, idcs, values, text);
    Ok(bytes)
}

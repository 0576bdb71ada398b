// Writers of bytes at a place of the text; each answers the next place. A byte past the end of the
// text is counted and not stored, so that writing to no memory tells how long the text will be.
ghost use Rattle.std.specs.Prelude.{◌≡◌, ltb, length};
ghost use mathlib.Core.List.{[], ◌∷◌, flatten};
ghost use Rattle.sparse.specs.Matrix.{part, seen};
ghost use Rattle.sparse.specs.Refusals.{refuse};
ghost use Rattle.sparse.specs.Rows.{entries};
ghost use Rattle.text.specs.Asks.{Reach, LineAt, RowsAt};
ghost use Rattle.text.specs.Decimals.{decimal};
ghost use Rattle.text.specs.Mma.{piece, matrix_text, vector_text};
ghost use Rattle.text.specs.Writers.{Wrote, placed, pieces, row_pieces, link, links, ending};

use sparse::{Matrix, Refusal};

// Entries that have the row in common, or the column.
#[derive(Clone, Copy)]
pub enum Line {
    Row(u32),
    Column(u32),
}

// One byte.
pub fn put_byte(byte: u8, at: usize, text: &mut [u8]) -> usize
    requires { Reach at 1 }
    ensures { Wrote (byte ∷ []) at text.old result text.new }
{
    if at < text.len() {
        text[at] = byte;
        return at + 1;
    }
    at + 1
}

// Bytes one after the other.
pub fn put_bytes(bytes: &[u8], at: usize, text: &mut [u8]) -> usize
    requires { Reach at (length bytes.now) }
    ensures { Wrote bytes.now at text.old result text.new }
{
    let mut next = at;
    for &byte in bytes {
        next = put_byte(byte, next, text);
    }
    next
}

// A number in decimal: the digits before the last are those of a tenth of it.
pub fn put_decimal(n: u64, at: usize, text: &mut [u8]) -> usize
    requires { Reach at 20 }
    ensures { Wrote (decimal n) at text.old result text.new }
{
    if n < 10 {
        return put_byte(b'0' + n as u8, at, text);
    }
    let next = put_decimal(n / 10, at, text);
    put_byte(b'0' + (n % 10) as u8, next, text)
}

// A byte, and then a number.
pub fn put_after(byte: u8, n: u64, at: usize, text: &mut [u8]) -> usize
    requires { Reach at 21 }
    ensures { Wrote (byte ∷ decimal n) at text.old result text.new }
{
    let next = put_byte(byte, at, text);
    put_decimal(n, next, text)
}

// {row,column}->value, the row and the column counted from 1.
pub fn put_piece(row: u32, col: u32, value: u32, at: usize, text: &mut [u8]) -> usize
    requires { Reach at 65 }
    ensures { Wrote (piece row col value) at text.old result text.new }
{
    let comma = put_after(b'{', row as u64 + 1, at, text);
    let arrow = put_after(b',', col as u64 + 1, comma, text);
    let number = put_bytes(b"}->", arrow, text);
    put_decimal(value as u64, number, text)
}

// The piece of an entry of a line.
fn put_placed(line: Line, index: u32, value: u32, at: usize, text: &mut [u8]) -> usize
    requires { Reach at 65 }
    ensures { Wrote (placed line index value) at text.old result text.new }
{
    match line {
        Line::Row(row) => put_piece(row, index, value, at, text),
        Line::Column(col) => put_piece(index, col, value, at, text),
    }
}

// The piece of entry k of all, with the comma before it.
fn put_entry(line: Line, k: usize, index: u32, value: u32, at: usize, text: &mut [u8]) -> usize
    requires { Reach at 66 }
    ensures { Wrote (link k (placed line index value)) at text.old result text.new }
{
    if k == 0 {
        return put_placed(line, index, value, at, text);
    }
    let next = put_byte(b',', at, text);
    put_placed(line, index, value, next, text)
}

// The pieces of a line, which has the entries from `start` up to `stop`.
pub fn put_line(
    line: Line,
    start: usize,
    stop: usize,
    idcs: &[u32],
    values: &[u32],
    at: usize,
    text: &mut [u8],
) -> usize
    requires { LineAt start stop idcs.now values.now at }
    ensures { Wrote (links start (pieces line (part start stop (entries idcs.now values.now)))) at text.old result text.new }
{
    let mut next = at;
    for k in start..stop {
        next = put_entry(line, k, idcs[k], values[k], next, text);
    }
    next
}

// The pieces of the rows.
pub fn put_rows(
    nrows: u32,
    row_ptrs: &[usize],
    col_idcs: &[u32],
    values: &[u32],
    at: usize,
    text: &mut [u8],
) -> usize
    requires { RowsAt nrows row_ptrs.now col_idcs.now values.now at }
    ensures { Wrote (links 0 (flatten (row_pieces nrows row_ptrs.now (entries col_idcs.now values.now)))) at text.old result text.new }
{
    let mut next = at;
    for i in 0..nrows {
        let k = i as usize;
        next = put_line(
            Line::Row(i),
            row_ptrs[k],
            row_ptrs[k + 1],
            col_idcs,
            values,
            next,
            text,
        );
    }
    next
}

// What follows the pieces: },{rows,columns}}.
pub fn put_ending(rows: u32, cols: u32, at: usize, text: &mut [u8]) -> usize
    requires { Reach at 46 }
    ensures { Wrote (ending rows cols) at text.old result text.new }
{
    let number = put_bytes(b"},{", at, text);
    let comma = put_decimal(rows as u64, number, text);
    let end = put_after(b',', cols as u64, comma, text);
    put_bytes(b"}}", end, text)
}

// A whole matrix: two bytes before the pieces, and at most 46 after them.
pub fn put_matrix(matrix: Matrix, text: &mut [u8]) -> usize
    requires { RowsAt matrix.nrows matrix.row_ptrs.now matrix.col_idcs.now matrix.values.now 48 }
    ensures { Wrote (matrix_text (seen matrix.entry)) 0 text.old result text.new }
{
    let Matrix {
        nrows,
        ncols,
        row_ptrs,
        col_idcs,
        values,
    } = matrix;
    let first = put_bytes(b"{{", 0, text);
    let end = put_rows(nrows, row_ptrs, col_idcs, values, first, text);
    put_ending(nrows, ncols, end, text)
}

// A whole vector, as one column.
pub fn put_vector(len: u32, idcs: &[u32], values: &[u32], text: &mut [u8]) -> usize
    requires { LineAt 0 (length values.now) idcs.now values.now 48 }
    ensures { Wrote (vector_text len idcs.now values.now) 0 text.old result text.new }
{
    let first = put_bytes(b"{{", 0, text);
    let end = put_line(Line::Column(0), 0, values.len(), idcs, values, first, text);
    put_ending(len, 1, end, text)
}

// 14: room for the bytes.
pub fn room_test(bytes: usize, places: usize) -> Result<(), Refusal>
    ensures { result ≡ refuse (ltb places bytes) Refusal.Room }
{
    if places < bytes {
        return Err(Refusal::Room);
    }
    Ok(())
}

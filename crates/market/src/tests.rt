// When a text is refused.
ghost use Rattle.std.specs.Prelude.{◌≡◌, drop};
ghost use Rattle.market.specs.Faults.{none, note, oversize, verdict_of, walk_on, walk_read};
ghost use Rattle.market.specs.Parse.{whole};
ghost use Rattle.market.specs.Tests.{outside, market_test};
ghost use Rattle.triplets.specs.Triplets.{triplet, before};

use crate::lines::{Numbers, line_at, size_line};
use crate::{MAX_ENTRIES, MAX_SIDE, MAX_TEXT, MODULUS};
use sparse::Refusal;

// What is wrong with the entries that were read, and the place of the last of them.
#[derive(Clone, Copy)]
pub struct Faults {
    pub large: bool,
    pub zero: bool,
    pub outside: bool,
    pub order: bool,
    pub row: u64,
    pub col: u64,
}

// 15 alone, or the lowest of 2, 6, 7, 8 and 9 that applies.
pub fn market_test(text: &[u8]) -> Result<(), Refusal>
    ensures { result ≡ market_test text.now }
{
    if text.len() > MAX_TEXT {
        return Err(Refusal::Text);
    }
    let size = size_line(text).ok_or(Refusal::Text)?;
    let faults = walk(text, size).ok_or(Refusal::Text)?;
    verdict(size, faults)
}

// The faults of the entry lines, where these are as many as the size line says, and nothing after them.
fn walk(text: &[u8], size: Numbers) -> Option<Faults>
    ensures { walk_read result ≡ whole (walk_on size.row size.col none size.value (drop size.next text.now)) }
{
    let mut faults = Faults {
        large: false,
        zero: false,
        outside: false,
        order: false,
        row: 0,
        col: 0,
    };
    let mut at = size.next;
    for _ in 0..size.value {
        let entry = line_at(text, at)?;
        faults = noted(size, faults, entry);
        at = entry.next;
    }
    if at < text.len() {
        return None;
    }
    Some(faults)
}

// The faults with those of one entry more.
fn noted(size: Numbers, faults: Faults, entry: Numbers) -> Faults
    ensures { result ≡ note size.row size.col faults (triplet entry.row entry.col entry.value) }
{
    Faults {
        large: faults.large | (entry.value >= MODULUS as u64),
        zero: faults.zero | (entry.value == 0),
        outside: faults.outside | is_outside(size, entry),
        order: faults.order | !is_before(faults, entry),
        row: entry.row,
        col: entry.col,
    }
}

// Whether an entry lies outside the shape: places count from 1.
fn is_outside(size: Numbers, entry: Numbers) -> bool
    ensures { result ≡ outside size.row size.col (triplet entry.row entry.col entry.value) }
{
    if entry.row == 0 {
        return true;
    }
    if entry.row > size.row {
        return true;
    }
    if entry.col == 0 {
        return true;
    }
    entry.col > size.col
}

// Whether the last place stands before the entry by (row, column).
fn is_before(faults: Faults, entry: Numbers) -> bool
    ensures { result ≡ before (triplet faults.row faults.col 0) (triplet entry.row entry.col entry.value) }
{
    if faults.row < entry.row {
        return true;
    }
    if faults.row > entry.row {
        return false;
    }
    faults.col < entry.col
}

// The lowest of 2, 6, 7, 8 and 9 that applies.
fn verdict(size: Numbers, faults: Faults) -> Result<(), Refusal>
    ensures { result ≡ verdict_of size.row size.col size.value faults }
{
    if is_large(size) {
        return Err(Refusal::Size);
    }
    if faults.large {
        return Err(Refusal::Value);
    }
    if faults.zero {
        return Err(Refusal::Zero);
    }
    if faults.outside {
        return Err(Refusal::Outside);
    }
    if faults.order {
        return Err(Refusal::Order);
    }
    Ok(())
}

// Whether there are too many rows, columns or entries.
fn is_large(size: Numbers) -> bool
    ensures { result ≡ oversize size.row size.col size.value }
{
    if size.row > MAX_SIDE {
        return true;
    }
    if size.col > MAX_SIDE {
        return true;
    }
    size.value > MAX_ENTRIES
}

// A reader over one lent row, which yields its entries.
#![tactic(auto)]

ghost use Rattle.std.specs.Prelude.{◌≡◌};
ghost use Rattle.sparse.specs.Lent.{outcome};
ghost use Rattle.reading.specs.Read.{step_at, reader_at, next_of};

use sparse::{MAX_SIDE, Refusal};

// A row's lent columns and values, and the place of the entry that is read next.
#[derive(Clone, Copy)]
pub struct Reader<'a> {
    pub cols: &'a [u32],
    pub vals: &'a [u32],
    pub place: usize,
}

// An entry's column and value.
#[derive(Clone, Copy)]
pub struct Entry {
    pub col: u32,
    pub value: u32,
}

// What was read, an entry or nothing past the last one, and the place to read next.
#[derive(Clone, Copy)]
pub struct Step {
    pub read: Result<Option<Entry>, Refusal>,
    pub place: usize,
}

// The cursor under the reader: the entry at a place of a row, and the place after it. 2 and 3 are
// by the lengths alone.
fn step_at<'a>(cols: &'a [u32], vals: &'a [u32], place: usize) -> Step
    ensures { result ≡ step_at cols.now vals.now place }
{
    let entries = vals.len();
    if entries > MAX_SIDE as usize {
        return Step {
            read: Err(Refusal::Size),
            place,
        };
    }
    if cols.len() != entries {
        return Step {
            read: Err(Refusal::Shape),
            place,
        };
    }
    if place >= entries {
        return Step {
            read: Ok(None),
            place,
        };
    }
    Step {
        read: Ok(Some(Entry {
            col: cols[place],
            value: vals[place],
        })),
        place: place + 1,
    }
}

// A reader at a place of a row: 0 to start, and a step's place to go on.
pub fn reader_at<'a>(cols: &'a [u32], vals: &'a [u32], place: usize) -> Reader<'a>
    ensures { result ≡ reader_at cols.entry vals.entry place }
{
    Reader { cols, vals, place }
}

// The entry at the reader's place, None past the last one; the place moves on to the next.
pub fn next<'s, 'a>(r: &'s mut Reader<'a>) -> Result<Option<Entry>, Refusal>
    ensures { outcome result r.new ≡ next_of r.old }
{
    let step = step_at(r.cols, r.vals, r.place);
    r.place = step.place;
    step.read
}

// What stands at the reader's place, and the place after it; the reader stays where it is.
pub fn peek<'a>(r: Reader<'a>) -> Step
    ensures { result ≡ step_at r.entry.cols.now r.entry.vals.now r.entry.place }
{
    step_at(r.cols, r.vals, r.place)
}

// What a reader finds at a place of a row, for callers that have the row as plain slices.
pub fn entry_at<'a>(cols: &'a [u32], vals: &'a [u32], place: usize) -> Step
    ensures { result ≡ step_at cols.now vals.now place }
{
    peek(reader_at(cols, vals, place))
}

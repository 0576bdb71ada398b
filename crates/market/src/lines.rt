// The lines of a text, each at a place.
ghost use Rattle.std.specs.Prelude.{◌≡◌, false, drop};
ghost use Rattle.market.specs.Asks.{Entries, Listed};
ghost use Rattle.market.specs.Parse.{uncomment, decimal_to, line, lines, size_line};
ghost use Rattle.market.specs.Places.{number_read, line_read, listed};

// A number, and the place past the byte that ended it.
#[derive(Clone, Copy)]
pub struct Parsed {
    pub value: u64,
    pub next: usize,
}

// A line's three numbers, and the place past its line feed.
#[derive(Clone, Copy)]
pub struct Numbers {
    pub row: u64,
    pub col: u64,
    pub value: u64,
    pub next: usize,
}

// The most digits of a number.
const MOST_DIGITS: usize = 10;

// How many bytes the first line has.
const BANNER: usize = 49;

// The decimal at a place, up to the byte `stop`; None where there is none.
fn decimal_at(text: &[u8], stop: u8, at: usize) -> Option<Parsed>
    ensures { number_read text.now result ≡ decimal_to stop (drop at text.now) }
{
    let mut value: u64 = 0;
    for i in at..text.len() {
        let byte = text[i];
        if byte == stop {
            if i == at {
                return None;
            }
            return Some(Parsed { value, next: i + 1 });
        }
        if byte < b'0' {
            return None;
        }
        if byte > b'9' {
            return None;
        }
        if i - at >= MOST_DIGITS {
            return None;
        }
        value = value * 10 + (byte - b'0') as u64;
    }
    None
}

// The line of three decimals at a place; None where there is none.
pub fn line_at(text: &[u8], at: usize) -> Option<Numbers>
    ensures { line_read text.now result ≡ line (drop at text.now) }
{
    let row = decimal_at(text, b' ', at)?;
    let col = decimal_at(text, b' ', row.next)?;
    let value = decimal_at(text, b'\n', col.next)?;
    Some(Numbers {
        row: row.value,
        col: col.value,
        value: value.value,
        next: value.next,
    })
}

// Where the comment lines from a place on end.
fn past_comments(text: &[u8], at: usize) -> usize
    ensures { drop result text.now ≡ uncomment false (drop at text.now) }
{
    let mut within = false;
    for i in at..text.len() {
        let byte = text[i];
        if within {
            within = byte != b'\n';
            continue;
        }
        if byte != b'%' {
            return i;
        }
        within = true;
    }
    text.len()
}

// The size line, after the first line and the comments; None where there is none.
pub fn size_line(text: &[u8]) -> Option<Numbers>
    ensures { line_read text.now result ≡ size_line text.now }
{
    if text.starts_with(b"%%MatrixMarket matrix coordinate integer general\n") {
        return line_at(text, past_comments(text, BANNER));
    }
    None
}

// Writes the entries from a place of the text on, counted from 0, to the front of three lists.
pub fn read_entries(
    text: &[u8],
    count: u64,
    at: usize,
    rows: &mut [u32],
    cols: &mut [u32],
    vals: &mut [u32],
)
    requires { Entries text.now count at (listed (lines count (drop at text.now))) rows.old cols.old vals.old }
    ensures { Listed (listed (lines count (drop at text.now))) rows.old cols.old vals.old rows.new cols.new vals.new }
{
    let mut next = at;
    for k in 0..count as usize {
        // No answer to hand None on by: the contract says that the lines are there.
        let Some(entry) = line_at(text, next) else {
            return;
        };
        rows[k] = (entry.row - 1) as u32;
        cols[k] = (entry.col - 1) as u32;
        vals[k] = entry.value as u32;
        next = entry.next;
    }
}

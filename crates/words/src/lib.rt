// The words of a line: numbers and lists. Each reader is handed the text from its word's space on, and
// answers what is left behind the word; nothing where no such word stands there.
#![tactic(auto)]

// The most elements that a list of a matrix's or a vector's case may have.
pub const LONG: usize = 70000;

// The numbers of such a line: six lists of the longest, and a few numbers that stand alone.
pub const NUMBERS: usize = 420064;

// The row pointers of such a line: three lists of the longest, and a few.
pub const POINTERS: usize = 210020;

// The most digits of a number.
const MOST_DIGITS: usize = 20;

// Copies of a value.
#[derive(Clone, Copy)]
struct Run {
    value: u64,
    many: u64,
}

// A number, which is put into the memory at `to`; and where it ends there.
pub fn read_number<'a, T: TryFrom<u64> + Drop>(
    text: &'a [u8],
    to: usize,
    into: &mut [T],
) -> Option<(&'a [u8], usize)>
where
    T::Error: Drop,
{
    let (value, rest) = digits(past(text, b' ')?)?;
    *into.get_mut(to)? = T::try_from(value).ok()?;
    Some((rest, to.checked_add(1)?))
}

// A list of at most `long` elements, which are put into the memory from `to` on; and where they end there.
pub fn read_list<'a, T: TryFrom<u64> + Copy>(
    text: &'a [u8],
    long: usize,
    to: usize,
    into: &mut [T],
) -> Option<(&'a [u8], usize)>
where
    T::Error: Drop,
{
    let text = past(text, b' ')?;
    match past(text, b'-') {
        Some(rest) => Some((rest, to)),
        None => elements(text, long, to, into),
    }
}

// One element or more. Each takes a byte or more, so there are turns enough.
fn elements<'a, T: TryFrom<u64> + Copy>(
    text: &'a [u8],
    long: usize,
    to: usize,
    into: &mut [T],
) -> Option<(&'a [u8], usize)>
where
    T::Error: Drop,
{
    let mut rest = text;
    let mut to = to;
    let mut left = long as u64;
    for _ in 0..text.len() {
        let (run, behind) = copies(rest)?;
        left = left.checked_sub(run.many)?;
        to = put_copies(run, to, into)?;
        // No `?`: the list ends well here.
        let Some(next) = past(behind, b',') else {
            return Some((behind, to));
        };
        rest = next;
    }
    None
}

// Puts the copies into the memory, and says where they end there. A loop: `fill` wants a `clone` that is
// known not to fail, which a type parameter's is not.
fn put_copies<T: TryFrom<u64> + Copy>(run: Run, to: usize, into: &mut [T]) -> Option<usize>
where
    T::Error: Drop,
{
    let value = T::try_from(run.value).ok()?;
    let end = to.checked_add(run.many as usize)?;
    for place in into.get_mut(to..end)?.iter_mut() {
        *place = value;
    }
    Some(end)
}

// The element, or the copies of one, that the text starts with.
fn copies(text: &[u8]) -> Option<(Run, &[u8])> {
    let (value, rest) = digits(text)?;
    // No `?`: the value stands once.
    let Some(rest) = past(rest, b'*') else {
        return Some((Run { value, many: 1 }, rest));
    };
    let (many, rest) = digits(rest)?;
    Some((Run { value, many }, rest))
}

// The number whose digits start the text: 1 to 20 of them, and below 2^64.
fn digits(text: &[u8]) -> Option<(u64, &[u8])> {
    let mut value: u64 = 0;
    let mut rest = text;
    while let [digit @ b'0'..=b'9', behind @ ..] = rest {
        value = value
            .checked_mul(10)?
            .checked_add(u64::from(*digit - b'0'))?;
        rest = behind;
    }
    let many = text.len() - rest.len();
    if many == 0 || many > MOST_DIGITS {
        return None;
    }
    Some((value, rest))
}

// The text behind its first byte, where that is the byte.
fn past(text: &[u8], byte: u8) -> Option<&[u8]> {
    let (first, rest) = text.split_first()?;
    if *first == byte { Some(rest) } else { None }
}

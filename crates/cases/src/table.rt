// Cases of a family of calls, by the family's table.
ghost use Rattle.std.specs.Prelude.{◌<◌};

use sparse::Matrix;
use words::{read_list, read_number};

// The places where a word of a case starts or ends: one more than the most words.
const MARKS: usize = 22;

// A call of a family: its name, and a letter for each of its words, n for a number, w for a number of the
// pointers' size, l for a list and p for a list of pointers.
#[derive(Clone, Copy)]
pub struct Row<C>(pub C, pub &'static str, pub &'static str);

// How much of the two memories is filled.
#[derive(Clone, Copy)]
struct Mark {
    nums: usize,
    wides: usize,
}

// A case that was read: its call, and its words, how many these are and where each starts. The readers below
// answer 0 or an empty list of a word that is not there: that it is, the table's letters say, and no contract.
#[derive(Clone, Copy)]
pub struct Case<'a, C> {
    pub call: C,
    pub words: usize,
    marks: [Mark; MARKS],
    nums: &'a [u32],
    wides: &'a [usize],
}

// Whether the line's first word is one of the table's calls.
pub fn has_call<C>(line: &[u8], table: &[Row<C>]) -> bool {
    find(line, table).is_some()
}

// Reads a case of one of the table's calls, its lists of at most `long` elements.
pub fn read_case<'a, C: Copy>(
    line: &[u8],
    table: &[Row<C>],
    long: usize,
    nums: &'a mut [u32],
    wides: &'a mut [usize],
) -> Option<Case<'a, C>> {
    let (Row(call, _, letters), text) = find(line, table)?;
    let mut rest = text;
    let mut mark = Mark { nums: 0, wides: 0 };
    let mut marks = [mark; MARKS];
    for (k, letter) in letters.as_bytes().iter().enumerate() {
        (rest, mark) = read_word(rest, mark, *letter, long, nums, wides)?;
        *marks.get_mut(k + 1)? = mark;
    }
    if !rest.is_empty() {
        return None;
    }
    Some(Case {
        call: *call,
        words: letters.len(),
        marks,
        nums,
        wides,
    })
}

// The row of the line's first word, and the text behind that word.
fn find<'a, 't, C>(line: &'a [u8], table: &'t [Row<C>]) -> Option<(&'t Row<C>, &'a [u8])> {
    for row in table {
        let Row(_, name, _) = row;
        if let Some(rest) = line.strip_prefix(name.as_bytes()) {
            if let [b' ', ..] = rest {
                return Some((row, rest));
            }
        }
    }
    None
}

// Reads one word: the text behind it, and how much is filled then.
fn read_word<'a>(
    text: &'a [u8],
    mark: Mark,
    letter: u8,
    long: usize,
    nums: &mut [u32],
    wides: &mut [usize],
) -> Option<(&'a [u8], Mark)> {
    match letter {
        b'n' => {
            let (rest, end) = read_number(text, mark.nums, nums)?;
            Some((rest, Mark { nums: end, ..mark }))
        }
        b'l' => {
            let (rest, end) = read_list(text, long, mark.nums, nums)?;
            Some((rest, Mark { nums: end, ..mark }))
        }
        b'w' => {
            let (rest, end) = read_number(text, mark.wides, wides)?;
            Some((rest, Mark { wides: end, ..mark }))
        }
        b'p' => {
            let (rest, end) = read_list(text, long, mark.wides, wides)?;
            Some((rest, Mark { wides: end, ..mark }))
        }
        _ => None,
    }
}

impl<'a, C: Copy> Case<'a, C> {
    // The number that is the word k.
    pub fn number(&self, k: usize) -> u32 {
        let (from, _) = self.span(k);
        self.nums.get(from.nums).copied().unwrap_or(0)
    }

    // The first word, where it is a modulus.
    pub fn modulus(&self) -> u32 {
        self.number(0)
    }

    // The five words behind the modulus, where they are a matrix.
    pub fn matrix(&self) -> Matrix<'a> {
        self.matrix_at(1)
    }

    // The matrix that is the five words from k on.
    pub fn matrix_at(&self, k: usize) -> Matrix<'a>
        requires { k < 100 }
    {
        Matrix {
            nrows: self.number(k),
            ncols: self.number(k + 1),
            row_ptrs: self.pointers(k + 2),
            col_idcs: self.list(k + 3),
            values: self.list(k + 4),
        }
    }

    // The number of the pointers' size that is the word k.
    pub fn wide_number(&self, k: usize) -> usize {
        let (from, _) = self.span(k);
        self.wides.get(from.wides).copied().unwrap_or(0)
    }

    // The list that is the word k.
    pub fn list(&self, k: usize) -> &'a [u32] {
        let (from, to) = self.span(k);
        self.nums.get(from.nums..to.nums).unwrap_or(&[])
    }

    // The list of pointers that is the word k.
    pub fn pointers(&self, k: usize) -> &'a [usize] {
        let (from, to) = self.span(k);
        self.wides.get(from.wides..to.wides).unwrap_or(&[])
    }

    // Where the word k starts and ends; the start of both memories where there is none.
    fn span(&self, k: usize) -> (Mark, Mark) {
        match self.marks.get(k..) {
            Some([from, to, ..]) => (*from, *to),
            _ => (self.marks[0], self.marks[0]),
        }
    }
}

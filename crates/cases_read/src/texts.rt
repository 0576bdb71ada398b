// The calls that are lent a text, which is their last word.
use answers::Out;
use cases::memory::lend_text;
use cases::table::{Case, Row, has_call, read_case};
use sparse::Refusal;
use words::LONG;

#[derive(Clone, Copy)]
enum Call {
    Matrix,
    Vector,
}

// The calls, each with the letters of its words.
const TABLE: [Row<Call>; 2] = [
    Row(Call::Matrix, "fmt_mma", "nnnplll"),
    Row(Call::Vector, "fmt_mma_vector", "nnlll"),
];

pub fn has(line: &[u8]) -> bool {
    has_call(line, &TABLE)
}

// Answers the line where it is a case of one of these calls: lends the text, calls, and puts the answer and
// the text.
pub fn said(
    line: &[u8],
    nums: &mut [u32],
    wides: &mut [usize],
    text: &mut [u8],
    out: &mut Out,
) -> Option<()> {
    let case = read_case(line, &TABLE, LONG, nums, wides)?;
    let text = lend_text(case.list(case.words.checked_sub(1)?), text)?;
    put_printed(out, print(&case, text));
    out.put_list(text);
    Some(())
}

fn print(case: &Case<Call>, text: &mut [u8]) -> Result<usize, Refusal> {
    match case.call {
        Call::Matrix => matrix(case, text),
        Call::Vector => vector(case, text),
    }
}

fn matrix(case: &Case<Call>, text: &mut [u8]) -> Result<usize, Refusal> {
    text::fmt_mma(case.modulus(), case.matrix(), text)
}

fn vector(case: &Case<Call>, text: &mut [u8]) -> Result<usize, Refusal> {
    text::fmt_mma_vector(
        case.number(0),
        case.number(1),
        case.list(2),
        case.list(3),
        text,
    )
}

fn put_printed(out: &mut Out, found: Result<usize, Refusal>) {
    match found {
        Ok(many) => out.put_count(b"bytes", many),
        Err(why) => out.put_refused(why),
    }
}

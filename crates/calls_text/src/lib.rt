// The report of a text in memory as the case has it, and the answer to the case.
#![tactic(auto)]

use answers::Out;
use cases_text::form::{TEXT, first_number, put_bytes, read_text};
use cases_text::memory::{SHOWN, kept, lend};
use report::report;
use sparse::Refusal;

// The most rows, and the most columns.
const SIDE: usize = 64;

// Pointers of so many rows.
const POINTERS: usize = 65;

// The most entries of the matrix.
const ENTRIES: usize = 1024;

// The most entries of U, and of L.
const FILLED: usize = 4096;

// The largest number that says which list is short.
const MOST_SHORT: u8 = 14;

// What the call answers, and whether all lent memory but the report's is as it was.
#[derive(Clone, Copy)]
struct Outcome {
    printed: Result<usize, Refusal>,
    kept: bool,
}

// Answers the line where it is a case.
pub fn said(
    line: &[u8],
    text: &mut [u8; TEXT],
    shown: &mut [u8; SHOWN],
    out: &mut Out,
) -> Option<()> {
    let (short, line) = first_number(line)?;
    if short > MOST_SHORT {
        return None;
    }
    let n = read_text(line, text)?;
    put_told(text.get(..n)?, short, shown, out);
    Some(())
}

fn put_told(text: &[u8], short: u8, shown: &mut [u8; SHOWN], out: &mut Out) {
    let told = told(text, short, shown);
    let kept = told.kept && kept(shown);
    put_printed(out, told.printed, shown);
    if kept {
        out.put(b" kept");
    } else {
        out.put(b" changed");
    }
}

// The report's bytes, of which `shown` has enough, or the refusal.
fn put_printed(out: &mut Out, printed: Result<usize, Refusal>, shown: &[u8]) {
    match printed {
        Ok(n) => put_bytes(out, shown.get(..n).unwrap_or(&[])),
        Err(why) => out.put_refused(why),
    }
}

// Makes the memory, and calls.
fn told(text: &[u8], short: u8, shown: &mut [u8; SHOWN]) -> Outcome {
    let mut row_ptrs = [0usize; POINTERS];
    let mut col_idcs = [0u32; ENTRIES];
    let mut values = [0u32; ENTRIES];
    let mut dense = [0u32; SIDE];
    let mut answers = [0u32; SIDE];
    let mut u_cols = [0u32; FILLED];
    let mut u_vals = [0u32; FILLED];
    let mut u_ptrs = [0usize; POINTERS];
    let mut l_cols = [0u32; FILLED];
    let mut l_vals = [0u32; FILLED];
    let mut l_ptrs = [0usize; POINTERS];
    let mut pivots = [0u32; SIDE];
    let printed = reported(
        text,
        short,
        &mut row_ptrs,
        &mut col_idcs,
        &mut values,
        &mut dense,
        &mut answers,
        &mut u_cols,
        &mut u_vals,
        &mut u_ptrs,
        &mut l_cols,
        &mut l_vals,
        &mut l_ptrs,
        &mut pivots,
        shown,
    );
    let of_matrix = kept_three(&row_ptrs, &col_idcs, &values);
    let of_u = kept_three(&u_ptrs, &u_cols, &u_vals);
    let of_l = kept_three(&l_ptrs, &l_cols, &l_vals);
    let kept = kept_work(&dense, &answers, &pivots) && of_matrix && of_u && of_l;
    Outcome { printed, kept }
}

// Lends the memory. The lists have their numbers by the call's order.
fn reported(
    text: &[u8],
    short: u8,
    row_ptrs: &mut [usize],
    col_idcs: &mut [u32],
    values: &mut [u32],
    dense: &mut [u32],
    answers: &mut [u32],
    u_cols: &mut [u32],
    u_vals: &mut [u32],
    u_ptrs: &mut [usize],
    l_cols: &mut [u32],
    l_vals: &mut [u32],
    l_ptrs: &mut [usize],
    pivots: &mut [u32],
    shown: &mut [u8],
) -> Result<usize, Refusal> {
    report(
        text,
        lend(row_ptrs, short, 1),
        lend(col_idcs, short, 2),
        lend(values, short, 3),
        lend(dense, short, 4),
        lend(answers, short, 5),
        lend(u_cols, short, 6),
        lend(u_vals, short, 7),
        lend(u_ptrs, short, 8),
        lend(l_cols, short, 9),
        lend(l_vals, short, 10),
        lend(l_ptrs, short, 11),
        lend(pivots, short, 12),
        lend(shown, short, 13),
    )
}

fn kept_work(dense: &[u32], answers: &[u32], pivots: &[u32]) -> bool {
    kept(dense) && kept(answers) && kept(pivots)
}

// The pointers, columns and values of a matrix.
fn kept_three(ptrs: &[usize], cols: &[u32], vals: &[u32]) -> bool {
    kept(ptrs) && kept(cols) && kept(vals)
}

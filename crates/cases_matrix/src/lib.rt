// Cases of the calls that take the rows of a matrix. Their last nine words are the lent memory.
#![tactic(auto)]

ghost use Rattle.std.specs.Prelude.{◌≤◌};

use answers::Out;
use calls_many::{Call, reduce};
use cases::memory::lend;
use cases::table::{Case, Row, has_call, read_case};
use cases_rows::memory::{ENTRIES, PLACES, ROW_NUMBERS, ROW_POINTERS, fits};
use cases_rows::told::{put_all, put_reduced};

// The calls, each with the letters of its words: the counts, or the modulus and the mode; the matrix;
// dense memory, answers, U, L and the pivots.
const TABLE: [Row<Call>; 6] = [
    Row(
        Call::AddMatrix { on: false },
        "reducer_add_matrix",
        "nnnwwwwnnpllllllpllpl",
    ),
    Row(
        Call::AddMatrix { on: true },
        "reducer_add_matrix_with_back_subs",
        "nnnwwwwnnpllllllpllpl",
    ),
    Row(
        Call::FromMatrix { on: false },
        "reducer_from_matrix",
        "nnnnpllllllpllpl",
    ),
    Row(
        Call::FromMatrix { on: true },
        "reducer_from_matrix_with_back_subs",
        "nnnnpllllllpllpl",
    ),
    Row(
        Call::CheckDependent { on: false },
        "reducer_from_matrix_check_dependent",
        "nnnnpllllllpllpl",
    ),
    Row(
        Call::CheckDependent { on: true },
        "reducer_from_matrix_check_dependent_with_back_subs",
        "nnnnpllllllpllpl",
    ),
];

// The most words before the lent memory: the counts and the matrix.
const MOST_BEFORE: usize = 12;

pub fn has(line: &[u8]) -> bool {
    has_call(line, &TABLE)
}

// Answers the line where it is a case of one of these calls.
pub fn said(
    line: &[u8],
    nums: &mut [u32; ROW_NUMBERS],
    wides: &mut [usize; ROW_POINTERS],
    dense: &mut [u32; PLACES],
    answers: &mut [u32; PLACES],
    u_cols: &mut [u32; ENTRIES],
    u_vals: &mut [u32; ENTRIES],
    u_ptrs: &mut [usize; PLACES],
    l_cols: &mut [u32; ENTRIES],
    l_vals: &mut [u32; ENTRIES],
    l_ptrs: &mut [usize; PLACES],
    pivots: &mut [u32; PLACES],
    out: &mut Out,
) -> Option<()> {
    let case = read_case(line, &TABLE, ENTRIES, nums, wides)?;
    let at = case.words.checked_sub(9)?;
    if at > MOST_BEFORE || !fits(&case, at, at + 2) {
        return None;
    }
    lent(
        at, &case, dense, answers, u_cols, u_vals, u_ptrs, l_cols, l_vals, l_ptrs, pivots, out,
    )
}

// Lends the memory, which starts at the word `at`.
fn lent(
    at: usize,
    case: &Case<Call>,
    dense: &mut [u32],
    answers: &mut [u32],
    u_cols: &mut [u32],
    u_vals: &mut [u32],
    u_ptrs: &mut [usize],
    l_cols: &mut [u32],
    l_vals: &mut [u32],
    l_ptrs: &mut [usize],
    pivots: &mut [u32],
    out: &mut Out,
) -> Option<()>
    requires { at ≤ 12 }
{
    let dense = lend(case.list(at), dense);
    let answers = lend(case.list(at + 1), answers);
    let u_cols = lend(case.list(at + 2), u_cols);
    let u_vals = lend(case.list(at + 3), u_vals);
    let u_ptrs = lend(case.pointers(at + 4), u_ptrs);
    let l_cols = lend(case.list(at + 5), l_cols);
    let l_vals = lend(case.list(at + 6), l_vals);
    let l_ptrs = lend(case.pointers(at + 7), l_ptrs);
    let pivots = lend(case.list(at + 8), pivots);
    taken(
        case, dense, answers, u_cols, u_vals, u_ptrs, l_cols, l_vals, l_ptrs, pivots, out,
    )
}

// Calls, and puts the answer and the memory.
fn taken(
    case: &Case<Call>,
    dense: &mut [u32],
    answers: &mut [u32],
    u_cols: &mut [u32],
    u_vals: &mut [u32],
    u_ptrs: &mut [usize],
    l_cols: &mut [u32],
    l_vals: &mut [u32],
    l_ptrs: &mut [usize],
    pivots: &mut [u32],
    out: &mut Out,
) -> Option<()> {
    let reduced = reduce(
        case, dense, answers, u_cols, u_vals, u_ptrs, l_cols, l_vals, l_ptrs, pivots,
    )?;
    put_reduced(out, reduced);
    put_all(
        out, dense, answers, u_cols, u_vals, u_ptrs, l_cols, l_vals, l_ptrs, pivots,
    );
    Some(())
}

// Writers of the output's lines; each answers the next place.
ghost use Rattle.std.specs.Prelude.{[], ◌∷◌, ◌++◌, ◌+◌, take};
ghost use Rattle.sparse.specs.Matrix.{matrix};
ghost use Rattle.state.specs.Memory.{memory};
ghost use Rattle.text.specs.Asks.{Reach};
ghost use Rattle.text.specs.Mma.{matrix_text};
ghost use Rattle.text.specs.Writers.{Wrote};
ghost use Rattle.reporting.specs.Asks.{Rows, RowsFrom};
ghost use Rattle.reporting.specs.Text.{worth_text, heading, report_text};

use solving::Solved;
use text::inside::{put_byte, put_bytes, put_decimal, put_ending, put_rows};

// A determinant, or none.
fn put_worth(worth: Option<u32>, at: usize, out: &mut [u8]) -> usize
    requires { Reach at 20 }
    ensures { Wrote (worth_text worth) at out.old result out.new }
{
    match worth {
        Some(value) => put_decimal(value as u64, at, out),
        None => put_bytes(b"none", at, out),
    }
}

// The lines of the rank and of the determinant.
fn put_heading(rank: usize, det: Option<u32>, out: &mut [u8]) -> usize
    ensures { Wrote (heading rank det) 0 out.old result out.new }
{
    let number = put_bytes(b"rank ", 0, out);
    let line = put_decimal(rank as u64, number, out);
    let worth = put_bytes(b"\ndet ", line, out);
    let end = put_worth(det, worth, out);
    put_byte(b'\n', end, out)
}

// The line of U.
fn put_upper(
    rank: usize,
    ncols: u32,
    fill: usize,
    u_cols: &[u32],
    u_vals: &[u32],
    u_ptrs: &[usize],
    at: usize,
    out: &mut [u8],
) -> usize
    requires { RowsFrom rank fill u_cols.now u_vals.now u_ptrs.now at }
    ensures { Wrote (matrix_text (matrix rank ncols (take (rank + 1) u_ptrs.now) (take fill u_cols.now) (take fill u_vals.now)) ++ 10 ∷ []) at out.old result out.new }
{
    let first = put_bytes(b"{{", at, out);
    let stop = rank + 1;
    let end = put_rows(
        rank as u32,
        &u_ptrs[..stop],
        &u_cols[..fill],
        &u_vals[..fill],
        first,
        out,
    );
    let line = put_ending(rank as u32, ncols, end, out);
    put_byte(b'\n', line, out)
}

// The whole output.
pub fn put_report(
    solved: Solved,
    u_cols: &[u32],
    u_vals: &[u32],
    u_ptrs: &[usize],
    out: &mut [u8],
) -> usize
    requires { Rows solved.counts.rank solved.counts.u_fill u_cols.now u_vals.now u_ptrs.now }
    ensures { Wrote (report_text solved (memory u_cols.now u_vals.now u_ptrs.now [] [] [] [])) 0 out.old result out.new }
{
    let counts = solved.counts;
    let rank = counts.rank;
    let fill = counts.u_fill;
    let det = solved.det;
    let next = put_heading(rank, det, out);
    put_upper(rank, counts.ncols, fill, u_cols, u_vals, u_ptrs, next, out)
}

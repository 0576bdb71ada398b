// Whether the lent memory is too short: for a text within the limits nothing more is needed.
ghost use Rattle.std.specs.Prelude.{◌≡◌, ◌||◌};
ghost use Rattle.sparse.specs.Lent.{lent};
ghost use Rattle.state.specs.Memory.{memory};
ghost use Rattle.running.specs.Rows.{night};
ghost use Rattle.report.specs.Work.{short, work, work_test};

use sparse::Refusal;

// The most rows, and the most columns.
const SIDE: usize = 64;

// The most entries of a matrix, and of its U.
const ENTRIES: usize = 1024;

const FILL: usize = 4096;

// The most bytes of output.
const BYTES: usize = 163840;

fn is_narrow(dense: &[u32], answers: &[u32], pivots: &[u32]) -> bool
    ensures { result ≡ (short 64 dense.now || short 64 answers.now || short 64 pivots.now) }
{
    (dense.len() < SIDE) | (answers.len() < SIDE) | (pivots.len() < SIDE)
}

fn is_short(
    row_ptrs: &[usize],
    col_idcs: &[u32],
    values: &[u32],
    u_cols: &[u32],
    u_vals: &[u32],
    u_ptrs: &[usize],
    l_cols: &[u32],
    l_vals: &[u32],
    l_ptrs: &[usize],
    out: &[u8],
) -> bool
    ensures { result ≡ (short 65 row_ptrs.now || short 1024 col_idcs.now || short 1024 values.now || short 4096 u_cols.now || short 4096 u_vals.now || short 65 u_ptrs.now || short 4096 l_cols.now || short 4096 l_vals.now || short 65 l_ptrs.now || short 163840 out.now) }
{
    (row_ptrs.len() < SIDE + 1)
        | (col_idcs.len() < ENTRIES)
        | (values.len() < ENTRIES)
        | (u_cols.len() < FILL)
        | (u_vals.len() < FILL)
        | (u_ptrs.len() < SIDE + 1)
        | (l_cols.len() < FILL)
        | (l_vals.len() < FILL)
        | (l_ptrs.len() < SIDE + 1)
        | (out.len() < BYTES)
}

// 11, then 14.
pub fn work_test(
    row_ptrs: &[usize],
    col_idcs: &[u32],
    values: &[u32],
    dense: &[u32],
    answers: &[u32],
    u_cols: &[u32],
    u_vals: &[u32],
    u_ptrs: &[usize],
    l_cols: &[u32],
    l_vals: &[u32],
    l_ptrs: &[usize],
    pivots: &[u32],
    out: &[u8],
) -> Result<(), Refusal>
    ensures { result ≡ work_test (work (lent row_ptrs.now col_idcs.now values.now) (night (memory u_cols.now u_vals.now u_ptrs.now l_cols.now l_vals.now l_ptrs.now pivots.now) answers.now dense.now) out.now) }
{
    if is_narrow(dense, answers, pivots) {
        return Err(Refusal::Mismatch);
    }
    if is_short(
        row_ptrs, col_idcs, values, u_cols, u_vals, u_ptrs, l_cols, l_vals, l_ptrs, out,
    ) {
        return Err(Refusal::Room);
    }
    Ok(())
}

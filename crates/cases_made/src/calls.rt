// The calls, each with the words that its row of the table names.
use cases::table::Case;
use sparse::Refusal;

#[derive(Clone, Copy)]
pub enum Call {
    Triplets,
    AppendIdentity,
    AppendCol,
    Append,
    AddRow,
    TakeRevRightHalf,
    SortRowsByPivot,
}

pub fn build(
    case: &Case<Call>,
    ptrs: &mut [usize],
    cols: &mut [u32],
    vals: &mut [u32],
) -> Result<usize, Refusal> {
    match case.call {
        Call::Triplets => triplets(case, ptrs, cols, vals),
        Call::AppendIdentity => append_identity(case, ptrs, cols, vals),
        Call::AppendCol => append_col(case, ptrs, cols, vals),
        Call::Append => append(case, ptrs, cols, vals),
        Call::AddRow => add_row(case, ptrs, cols, vals),
        Call::TakeRevRightHalf => take_rev_right_half(case, ptrs, cols, vals),
        Call::SortRowsByPivot => sort_rows_by_pivot(case, ptrs, cols, vals),
    }
}

fn triplets(
    case: &Case<Call>,
    ptrs: &mut [usize],
    cols: &mut [u32],
    vals: &mut [u32],
) -> Result<usize, Refusal> {
    triplets::from_triplets(
        case.number(0),
        case.number(1),
        case.number(2),
        case.list(3),
        case.list(4),
        case.list(5),
        ptrs,
        cols,
        vals,
    )
}

fn append_identity(
    case: &Case<Call>,
    ptrs: &mut [usize],
    cols: &mut [u32],
    vals: &mut [u32],
) -> Result<usize, Refusal> {
    beside::append_identity(case.modulus(), case.matrix(), ptrs, cols, vals)
}

fn append_col(
    case: &Case<Call>,
    ptrs: &mut [usize],
    cols: &mut [u32],
    vals: &mut [u32],
) -> Result<usize, Refusal> {
    beside::append_col(
        case.modulus(),
        case.matrix(),
        case.number(6),
        case.list(7),
        case.list(8),
        ptrs,
        cols,
        vals,
    )
}

fn append(
    case: &Case<Call>,
    ptrs: &mut [usize],
    cols: &mut [u32],
    vals: &mut [u32],
) -> Result<usize, Refusal> {
    below::append(
        case.modulus(),
        case.matrix(),
        case.matrix_at(6),
        ptrs,
        cols,
        vals,
    )
}

fn add_row(
    case: &Case<Call>,
    ptrs: &mut [usize],
    cols: &mut [u32],
    vals: &mut [u32],
) -> Result<usize, Refusal> {
    below::add_row(
        case.modulus(),
        case.matrix(),
        case.list(6),
        case.list(7),
        ptrs,
        cols,
        vals,
    )
}

fn take_rev_right_half(
    case: &Case<Call>,
    ptrs: &mut [usize],
    cols: &mut [u32],
    vals: &mut [u32],
) -> Result<usize, Refusal> {
    moves::take_rev_right_half(case.modulus(), case.matrix(), ptrs, cols, vals)
}

fn sort_rows_by_pivot(
    case: &Case<Call>,
    ptrs: &mut [usize],
    cols: &mut [u32],
    vals: &mut [u32],
) -> Result<usize, Refusal> {
    moves::sort_rows_by_pivot(
        case.modulus(),
        case.matrix(),
        case.list(6),
        ptrs,
        cols,
        vals,
    )
}

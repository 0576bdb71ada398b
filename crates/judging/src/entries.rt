// The entries of an L row, by the row's answer.
ghost use Rattle.std.specs.Prelude.{◌≡◌, ◌&&◌, leb, ltb, get_or, ◌-◌};
ghost use Rattle.lists.specs.Find.{any};
ghost use Rattle.sparse.specs.Rows.{entries};
ghost use Rattle.accounts.specs.Judgement.{unstorable, astray, diagonal_fault, answer_fault};
ghost use Rattle.judging.specs.Asks.{upper, head_in, HasHead, Follows, Ranked, Named, Placed, Until};
ghost use Rattle.judging.specs.Faults.{entries_fault};

use telling::NONE;

// Whether a value isn't in 1..p-1.
fn is_unstorable(p: u32, value: u32) -> bool
    ensures { result ≡ unstorable p value }
{
    if value == 0 {
        return true;
    }
    value >= p
}

// The column of a U row's head.
fn head_of(u_cols: &[u32], u_ptrs: &[usize], row: usize) -> u32
    requires { HasHead u_cols.now u_ptrs.now row }
    ensures { result ≡ head_in u_cols.now u_ptrs.now row }
{
    let start = u_ptrs[row];
    u_cols[start]
}

// Whether the pivot column of an L entry isn't above that of the entry before it.
fn is_falling(u_cols: &[u32], u_ptrs: &[usize], l_cols: &[u32], at: usize) -> bool
    requires { Follows u_cols.now u_ptrs.now l_cols.now at }
    ensures { result ≡ ltb 0 at && leb (head_in u_cols.now u_ptrs.now (get_or l_cols.now at 0)) (head_in u_cols.now u_ptrs.now (get_or l_cols.now (at - 1) 0)) }
{
    if at == 0 {
        return false;
    }
    let row = l_cols[at];
    let before = l_cols[at - 1];
    let head = head_of(u_cols, u_ptrs, row as usize);
    head <= head_of(u_cols, u_ptrs, before as usize)
}

// Whether an L entry names no earlier U row, falls in the order of pivot columns, or has no value in
// 1..p-1.
fn is_astray(
    p: u32,
    ncols: u32,
    u_cols: &[u32],
    u_vals: &[u32],
    u_ptrs: &[usize],
    earlier: usize,
    l_cols: &[u32],
    l_vals: &[u32],
    at: usize,
) -> bool
    requires { Placed ncols u_cols.now u_vals.now u_ptrs.now earlier l_cols.now l_vals.now at }
    ensures { result ≡ astray p (upper ncols u_cols.now u_vals.now u_ptrs.now) earlier (entries l_cols.now l_vals.now) at }
{
    let row = l_cols[at];
    if row as usize >= earlier {
        return true;
    }
    if is_falling(u_cols, u_ptrs, l_cols, at) {
        return true;
    }
    is_unstorable(p, l_vals[at])
}

// Whether one of the first entries of an L row is astray.
fn some_astray(
    p: u32,
    ncols: u32,
    u_cols: &[u32],
    u_vals: &[u32],
    u_ptrs: &[usize],
    earlier: usize,
    l_cols: &[u32],
    l_vals: &[u32],
    until: usize,
) -> bool
    requires { Until ncols u_cols.now u_vals.now u_ptrs.now earlier l_cols.now l_vals.now until }
    ensures { result ≡ any until (astray p (upper ncols u_cols.now u_vals.now u_ptrs.now) earlier (entries l_cols.now l_vals.now)) }
{
    for at in 0..until {
        if is_astray(
            p, ncols, u_cols, u_vals, u_ptrs, earlier, l_cols, l_vals, at,
        ) {
            return true;
        }
    }
    false
}

// Whether the L row of an accepted row lacks its own number at the end, with a value in 1..p-1, or an
// entry before it is astray.
fn diagonal_fault(
    p: u32,
    ncols: u32,
    u_cols: &[u32],
    u_vals: &[u32],
    u_ptrs: &[usize],
    earlier: usize,
    l_cols: &[u32],
    l_vals: &[u32],
) -> bool
    requires { Named ncols u_cols.now u_vals.now u_ptrs.now earlier l_cols.now l_vals.now }
    ensures { result ≡ diagonal_fault p (upper ncols u_cols.now u_vals.now u_ptrs.now) earlier (entries l_cols.now l_vals.now) }
{
    if l_cols.len() == 0 {
        return true;
    }
    let last = l_cols.len() - 1;
    if some_astray(
        p, ncols, u_cols, u_vals, u_ptrs, earlier, l_cols, l_vals, last,
    ) {
        return true;
    }
    let row = l_cols[last];
    if row as usize != earlier {
        return true;
    }
    is_unstorable(p, l_vals[last])
}

// Whether an answer isn't the pivot column of the next U row.
fn answer_fault(
    ncols: u32,
    u_cols: &[u32],
    u_vals: &[u32],
    u_ptrs: &[usize],
    earlier: usize,
    answer: u32,
) -> bool
    requires { Ranked ncols u_cols.now u_vals.now u_ptrs.now earlier }
    ensures { result ≡ answer_fault (upper ncols u_cols.now u_vals.now u_ptrs.now) earlier answer }
{
    if u_ptrs.len() - 1 <= earlier {
        return true;
    }
    answer != head_of(u_cols, u_ptrs, earlier)
}

// Whether an L row's entries aren't those of a row with this answer.
pub fn entries_fault(
    p: u32,
    ncols: u32,
    u_cols: &[u32],
    u_vals: &[u32],
    u_ptrs: &[usize],
    earlier: usize,
    l_cols: &[u32],
    l_vals: &[u32],
    answer: u32,
) -> bool
    requires { Named ncols u_cols.now u_vals.now u_ptrs.now earlier l_cols.now l_vals.now }
    ensures { result ≡ entries_fault p (upper ncols u_cols.now u_vals.now u_ptrs.now) earlier answer (entries l_cols.now l_vals.now) }
{
    if answer == NONE {
        let until = l_cols.len();
        return some_astray(
            p, ncols, u_cols, u_vals, u_ptrs, earlier, l_cols, l_vals, until,
        );
    }
    if answer_fault(ncols, u_cols, u_vals, u_ptrs, earlier, answer) {
        return true;
    }
    diagonal_fault(p, ncols, u_cols, u_vals, u_ptrs, earlier, l_cols, l_vals)
}

// The matrix of a text, in lent memory.
ghost use Rattle.sparse.specs.Lent.{lent};
ghost use Rattle.reporting.specs.Said.{Loadable, Loaded, said_by};

use market::lines::{Numbers, read_entries};
use triplets::inside::write_triplets;

// Reads the entries that follow the size line, which wait in three lists, and builds their matrix.
pub fn load(
    text: &[u8],
    size: Numbers,
    u_cols: &mut [u32],
    u_vals: &mut [u32],
    l_cols: &mut [u32],
    row_ptrs: &mut [usize],
    col_idcs: &mut [u32],
    values: &mut [u32],
)
    requires { Loadable text.now size u_cols.old u_vals.old l_cols.old (lent row_ptrs.old col_idcs.old values.old) }
    ensures { Loaded (said_by text.now size) u_cols.old u_vals.old l_cols.old (lent row_ptrs.old col_idcs.old values.old) u_cols.new u_vals.new l_cols.new (lent row_ptrs.new col_idcs.new values.new) }
{
    let count = size.value;
    read_entries(text, count, size.next, u_cols, l_cols, u_vals);
    let many = count as usize;
    write_triplets(
        size.row as u32,
        &u_cols[..many],
        &l_cols[..many],
        &u_vals[..many],
        row_ptrs,
        col_idcs,
        values,
    );
}

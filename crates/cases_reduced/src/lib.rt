// What the cases of inserted columns, back substitution and determinants have in common: the sizes of a
// line's memory, of which the other lists have those of the calls that take rows; an answer.
#![tactic(auto)]

use answers::Out;
use cases_rows::memory::put_counts;
use state::Counts;

// The most elements of a list, and so of a lent list of U's or L's entries.
pub const ENTRIES: usize = 70000;

// The numbers of a line: six lists of entries, and the rest.
pub const NUMBERS: usize = 430000;

// Of a call that changes what a reducer has: the counts after it.
pub fn put_made(out: &mut Out, counts: Counts) {
    out.put(b"made");
    put_counts(out, counts);
}

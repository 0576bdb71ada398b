// What the calls answer, and the memory of those that take many rows.
use crate::memory::{put_counts, put_memory};
use answers::Out;
use sparse::Refusal;
use stepping::Stepped;
use telling::{Reduced, Run};

// Of a call that takes many rows: how many were taken, and the counts; where it stopped, the number before them.
pub fn put_reduced(out: &mut Out, reduced: Reduced) {
    match reduced {
        Reduced::Taken(run) => put_run(out, b"taken", run),
        Reduced::Dependent(run) => put_run(out, b"dependent", run),
        Reduced::Stopped(stop) => {
            out.put_count(b"stopped", u32::from(stop.why));
            put_run(out, b"", stop.run);
        }
        Reduced::Refused(why) => out.put_refused(why),
    }
}

// A word, how many rows were taken, and the counts.
pub fn put_run(out: &mut Out, word: &[u8], run: Run) {
    out.put_count(word, run.taken);
    put_counts(out, run.counts);
}

// All lent lists after the call.
pub fn put_all(
    out: &mut Out,
    dense: &[u32],
    answers: &[u32],
    u_cols: &[u32],
    u_vals: &[u32],
    u_ptrs: &[usize],
    l_cols: &[u32],
    l_vals: &[u32],
    l_ptrs: &[usize],
    pivots: &[u32],
) {
    out.put_list(dense);
    out.put_list(answers);
    put_memory(out, u_cols, u_vals, u_ptrs, l_cols, l_vals, l_ptrs, pivots);
}

// Of a call that takes one row.
pub fn put_added(out: &mut Out, added: Result<Stepped, Refusal>) {
    match added {
        Ok(stepped) => {
            put_answer(out, stepped.answer);
            put_counts(out, stepped.counts);
        }
        Err(why) => out.put_refused(why),
    }
}

fn put_answer(out: &mut Out, answer: Option<u32>) {
    match answer {
        Some(col) => out.put_count(b"accepted", col),
        None => out.put(b"none"),
    }
}

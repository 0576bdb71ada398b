// The determinant with the words of a case, and what it answers.
#![tactic(auto)]

use answers::Out;
use cases::table::Case;
use cases_rows::memory::put_memory;
use cases_rows::told::put_run;
use determinant::Determined;

// Calls, and puts the answer and the memory.
pub fn determined(
    case: &Case<()>,
    dense: &mut [u32],
    u_cols: &mut [u32],
    u_vals: &mut [u32],
    u_ptrs: &mut [usize],
    l_cols: &mut [u32],
    l_vals: &mut [u32],
    l_ptrs: &mut [usize],
    pivots: &mut [u32],
    out: &mut Out,
) {
    let determined = determinant::det(
        case.modulus(),
        case.matrix(),
        dense,
        u_cols,
        u_vals,
        u_ptrs,
        l_cols,
        l_vals,
        l_ptrs,
        pivots,
    );
    put_determined(out, determined);
    out.put_list(dense);
    put_memory(out, u_cols, u_vals, u_ptrs, l_cols, l_vals, l_ptrs, pivots);
}

// The value, or the number of the refusal at the row where it stopped; and the rows that were taken.
fn put_determined(out: &mut Out, determined: Determined) {
    match determined {
        Determined::Value(valued) => {
            out.put_count(b"value", valued.value);
            put_run(out, b"", valued.run);
        }
        Determined::Stopped(stop) => {
            out.put_count(b"stopped", u32::from(stop.why));
            put_run(out, b"", stop.run);
        }
        Determined::Refused(why) => out.put_refused(why),
    }
}

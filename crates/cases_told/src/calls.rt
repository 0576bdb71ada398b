// The calls, each with the words that its row of the table names, and their answers.
use answers::Out;
use cases::table::Case;
use field::prime::is_modulus;
use sparse::Refusal;

#[derive(Clone, Copy)]
pub enum Call {
    Prime,
    Inverse,
    Csr,
    Clean,
    Vector,
    IsOne,
}

// Answers a case.
pub fn told(case: &Case<Call>, out: &mut Out) {
    match case.call {
        Call::Prime => put_yes(out, is_modulus(case.number(0))),
        Call::Inverse => put_inverse(out, case.number(0), case.number(1)),
        Call::Csr => put_tested(out, sparse::try_from_csr(case.modulus(), case.matrix())),
        Call::Clean => put_tested(
            out,
            sparse::try_from_csr_clean(case.modulus(), case.matrix()),
        ),
        Call::Vector => put_tested(out, vector(case)),
        Call::IsOne => put_verdict(out, readers::is_one(case.modulus(), case.matrix())),
    }
}

fn vector(case: &Case<Call>) -> Result<(), Refusal> {
    sparse::try_from_csr_vector(case.number(0), case.number(1), case.list(2), case.list(3))
}

// The inverse; none where p is no modulus or a is not in 1..p-1.
fn invert(p: u32, a: u32) -> Option<u32> {
    if a == 0 || a >= p {
        return None;
    }
    if is_modulus(p) {
        return Some(field::inverse::inverse(p, a));
    }
    None
}

fn put_inverse(out: &mut Out, p: u32, a: u32) {
    match invert(p, a) {
        Some(inverse) => out.put_number(inverse),
        None => out.put(b"none"),
    }
}

fn put_tested(out: &mut Out, tested: Result<(), Refusal>) {
    match tested {
        Ok(()) => out.put(b"good"),
        Err(why) => out.put_refused(why),
    }
}

fn put_verdict(out: &mut Out, verdict: Result<bool, Refusal>) {
    match verdict {
        Ok(true) => put_yes(out, true),
        Ok(false) => put_yes(out, false),
        Err(why) => out.put_refused(why),
    }
}

fn put_yes(out: &mut Out, yes: bool) {
    out.put(if yes { b"yes" } else { b"no" });
}

// Lent lists. Each is filled with marks before the call, and looked at after it: 1 to 251, over and over.

// The bytes of the longest report.
pub const SHOWN: usize = 163840;

// The case of which every list is short.
const ALL: u8 = 14;

// How many marks there are.
const MARKS: usize = 251;

// List k of the call, but for its last place where the case says that it is short.
pub fn lend<T: From<u8> + Drop>(list: &mut [T], short: u8, k: u8) -> &mut [T] {
    for chunk in list.chunks_mut(MARKS) {
        put_marks(chunk);
    }
    let is_short = short == k || short == ALL;
    let n = if is_short {
        list.len().saturating_sub(1)
    } else {
        list.len()
    };
    &mut list[..n]
}

fn put_marks<T: From<u8> + Drop>(chunk: &mut [T]) {
    for (place, mark) in chunk.iter_mut().zip(1..252u8) {
        *place = T::from(mark);
    }
}

// Whether every place has its mark.
pub fn kept<T: From<u8> + PartialEq + Drop>(list: &[T]) -> bool {
    list.chunks(MARKS).all(|chunk| has_marks(chunk))
}

// A loop: `all` over the numbered places was measured a sixth slower for the whole program.
fn has_marks<T: From<u8> + PartialEq + Drop>(chunk: &[T]) -> bool {
    for (place, mark) in chunk.iter().zip(1..252u8) {
        if *place != T::from(mark) {
            return false;
        }
    }
    true
}

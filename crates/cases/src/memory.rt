// Lent lists in long memory.

// The bytes of the longest line, and one more, by which a longer one is known.
pub const LINES: usize = 1000001;

// A lent list as the case gives it, at the front of long memory; of what is longer than the memory,
// the front.
pub fn lend<'a, T: Copy>(list: &[T], into: &'a mut [T]) -> &'a mut [T] {
    let n = list.len().min(into.len());
    let lent = &mut into[..n];
    lent.copy_from_slice(&list[..n]);
    lent
}

// A lent text, likewise; none where an element is no byte.
pub fn lend_text<'a>(list: &[u32], into: &'a mut [u8]) -> Option<&'a mut [u8]> {
    let n = list.len().min(into.len());
    let lent = &mut into[..n];
    for (byte, number) in lent.iter_mut().zip(list) {
        *byte = u8::try_from(*number).ok()?;
    }
    Some(lent)
}

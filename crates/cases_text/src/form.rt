// Bytes in a line. One from a space to a tilde stands for itself, but for the backslash, which is `\\`; a line
// feed is `\n`, and every other byte `\x` and two hexadecimal digits.
ghost use Rattle.std.specs.Prelude.{◌<◌, IfSome};

use answers::Out;

// The bytes of the longest line, and one more, by which a longer one is known.
pub const LINES: usize = 140001;

// The longest text of a case.
pub const TEXT: usize = 33000;

// Reads the bytes that the line stands for into `text`, and says how many they are; nothing where the line is
// malformed or they are too many.
pub fn read_text(line: &[u8], text: &mut [u8]) -> Option<usize> {
    let mut rest = line;
    for (n, place) in text.iter_mut().enumerate() {
        if rest.is_empty() {
            return Some(n);
        }
        let (byte, behind) = unescaped(rest)?;
        *place = byte;
        rest = behind;
    }
    if rest.is_empty() {
        Some(text.len())
    } else {
        None
    }
}

// The byte that is written at the front, and what is behind it.
fn unescaped(line: &[u8]) -> Option<(u8, &[u8])> {
    match line {
        [b'\\', b'n', behind @ ..] => Some((b'\n', behind)),
        [b'\\', b'\\', behind @ ..] => Some((b'\\', behind)),
        [b'\\', b'x', high, low, behind @ ..] => {
            Some((16 * hex_value(*high)? + hex_value(*low)?, behind))
        }
        [b'\\', ..] => None,
        [byte @ b' '..=b'~', behind @ ..] => Some((*byte, behind)),
        _ => None,
    }
}

// What a hexadecimal digit says, a letter of which is small.
fn hex_value(digit: u8) -> Option<u8>
    ensures { IfSome result (λ value. value < 16) }
{
    match digit {
        b'0'..=b'9' => Some(digit - b'0'),
        b'a'..=b'f' => Some(digit - b'a' + 10),
        _ => None,
    }
}

// The number of one or two decimal digits before the line's first space, and what is behind the space.
pub fn first_number(line: &[u8]) -> Option<(u8, &[u8])> {
    match line {
        [one @ b'0'..=b'9', b' ', behind @ ..] => Some((*one - b'0', behind)),
        [ten @ b'0'..=b'9', one @ b'0'..=b'9', b' ', behind @ ..] => {
            Some((10 * (*ten - b'0') + (*one - b'0'), behind))
        }
        _ => None,
    }
}

// Puts bytes.
pub fn put_bytes(out: &mut Out, bytes: &[u8]) {
    for byte in bytes {
        put_escaped(out, *byte);
    }
}

fn put_escaped(out: &mut Out, byte: u8) {
    match byte {
        b'\n' => out.put(b"\\n"),
        b'\\' => out.put(b"\\\\"),
        b' '..=b'~' => out.put(&[byte]),
        _ => out.put(&[b'\\', b'x', hex_digit(byte / 16), hex_digit(byte % 16)]),
    }
}

// The hexadecimal digit of a number below 16.
fn hex_digit(number: u8) -> u8
    requires { number < 16 }
{
    if number < 10 {
        return b'0' + number;
    }
    b'a' + (number - 10)
}

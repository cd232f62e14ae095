// Text with escapes: \n, \r, \t, and \x with two digits in lower case, for a byte by its number, as \x7c for
// a bar; a backslash before any other byte, as in \\, stands for that byte.
ghost use Rattle.std.specs.Prelude.{◌≤◌};

use std::slice::Iter;

// As long as a text may be.
pub const PLAIN_ROOM: usize = 256;

// Stores what a field stands for, and gives the part that it fills.
pub fn plain<'a>(field: &[u8], room: &'a mut [u8; PLAIN_ROOM]) -> &'a [u8] {
    let mut filled = 0;
    let mut bytes = field.iter();
    for (i, place) in room.iter_mut().enumerate() {
        let Some(&byte) = bytes.next() else {
            break;
        };
        *place = if byte == b'\\' {
            escaped(&mut bytes)
        } else {
            byte
        };
        filled = i + 1;
    }
    &room[..filled.min(PLAIN_ROOM)]
}

// What the bytes behind a backslash stand for; those that are missing count as 0.
fn escaped(bytes: &mut Iter<'_, u8>) -> u8 {
    match next(bytes) {
        b'n' => b'\n',
        b'r' => b'\r',
        b't' => b'\t',
        b'x' => {
            let high = digit(next(bytes));
            (high * 16 + digit(next(bytes))) as u8
        }
        other => other,
    }
}

// The next byte; 0 where there is none.
fn next(bytes: &mut Iter<'_, u8>) -> u8 {
    bytes.next().copied().unwrap_or(0)
}

// What a digit of base 16 stands for; 0 for any other byte.
fn digit(byte: u8) -> u32
    ensures { result ≤ 15 }
{
    match byte {
        b'0'..=b'9' => (byte - b'0') as u32,
        b'a'..=b'f' => (byte - b'a') as u32 + 10,
        _ => 0,
    }
}

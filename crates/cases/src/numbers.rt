// Decimal numbers in a field.
ghost use Rattle.std.specs.Prelude.{◌≤◌};

use crate::parts::part;

// A word of digits as a number; as great as 8 bytes hold where it is greater. No digits are 0.
pub fn number(word: &[u8]) -> u64 {
    word.iter().fold(
        0,
        |n: u64, &byte| n.saturating_mul(10).saturating_add(digit(byte)),
    )
}

// What a digit stands for; 0 for any other byte.
fn digit(byte: u8) -> u64
    ensures { result ≤ 9 }
{
    match byte {
        b'0'..=b'9' => (byte - b'0') as u64,
        _ => 0,
    }
}

// A word as a number of 4 bytes: its lowest four.
pub fn small(word: &[u8]) -> u32 {
    (number(word) % 4_294_967_296) as u32
}

// The n-th figure of a field; the first is figure 0.
pub fn figure(field: &[u8], n: usize) -> u32 {
    small(part(field, n, b' '))
}

// The same as a number of 8 bytes.
pub fn large(field: &[u8], n: usize) -> u64 {
    number(part(field, n, b' '))
}

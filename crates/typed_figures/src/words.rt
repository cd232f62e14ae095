// The number that a word of decimal digits stands for.
ghost use Rattle.std.specs.Prelude.{◌≡◌};
ghost use Rattle.typed_figures.specs.Decimal.{number_in, number_says};

use crate::digits::{is_digit, push_digit};

// The number that a word of decimal digits stands for; none where there are no digits, something else
// than digits, or a number above 4,294,967,295: refusal 5.
pub fn number_of(word: &[u8]) -> Option<u32>
    ensures { number_says result ≡ number_in word.now }
{
    if word.is_empty() {
        return None;
    }
    let mut value = 0;
    for &byte in word {
        if !is_digit(byte) {
            return None;
        }
        value = push_digit(value, byte, u32::MAX)?;
    }
    Some(value)
}

// Signed figures in megabits, stored in a text. Public only for this crate's calls and the crates
// above, which show what is required.
ghost use Rattle.std.specs.Prelude.{◌+◌, ◌≤◌, length};
ghost use Rattle.text.specs.Megabits.{megabits, sign};
ghost use Rattle.text.specs.PutLaws.{Puts};

use crate::numerals::{put_digits, put_number};

// The digits behind the point: one megabit is 1,000 kilobits.
const PLACES: usize = 3;

// Stores a minus sign where the figure is below 0.
fn put_sign(text: &mut [u8], at: usize, figure: i64) -> usize
    requires { at + length (sign figure) ≤ length text.old }
    ensures { Puts text.old at (sign figure) text.new result }
{
    if figure < 0 {
        text[at] = b'-';
        at + 1
    } else {
        at
    }
}

// Stores a figure from `at` on and answers the place behind it.
pub fn put_megabits(text: &mut [u8], at: usize, figure: i64) -> usize
    requires { at + length (megabits figure) ≤ length text.old }
    ensures { Puts text.old at (megabits figure) text.new result }
{
    let kilobits = figure.unsigned_abs();
    let whole = put_sign(text, at, figure);
    let thousandths = put_number(text, whole, kilobits / 1000, b'.');
    put_digits(text, thousandths, PLACES, kilobits);
    thousandths + PLACES
}

// The fields of a line, each stored with the byte behind it. Public only for this crate, whose calls
// show what is required.
ghost use Rattle.std.specs.Prelude.{◌+◌, ◌≤◌, pos, length};
ghost use Rattle.text.specs.Megabits.{megabits};
ghost use Rattle.text.specs.Numeral.{ended};
ghost use Rattle.text.specs.PutLaws.{Puts};

use crate::figures::put_megabits;

// Stores a figure in megabits, then a byte.
pub fn put_figure(text: &mut [u8], at: usize, figure: i64, after: u8) -> usize
    requires { at + length (ended (megabits figure) after) ≤ length text.old }
    ensures { Puts text.old at (ended (megabits figure) after) text.new result }
{
    let end = put_megabits(text, at, figure);
    text[end] = after;
    end + 1
}

// Stores tokens in megabits, then a byte.
pub fn put_tokens(text: &mut [u8], at: usize, tokens: u32, after: u8) -> usize
    requires { at + length (ended (megabits (pos tokens)) after) ≤ length text.old }
    ensures { Puts text.old at (ended (megabits (pos tokens)) after) text.new result }
{
    put_figure(text, at, tokens as i64, after)
}

// Stores a word, then a byte.
pub fn put_word(text: &mut [u8], at: usize, word: &[u8], after: u8) -> usize
    requires { at + length (ended word.now after) ≤ length text.old }
    ensures { Puts text.old at (ended word.now after) text.new result }
{
    let end = at + word.len();
    text[at..end].copy_from_slice(word);
    text[end] = after;
    end + 1
}

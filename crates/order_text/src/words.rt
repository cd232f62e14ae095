// The word of a text around a place, for whoever is told of a fault there.
ghost use Rattle.std.specs.Prelude.{◌+◌, ◌≤◌, ◌≡◌, drop, length};
ghost use Rattle.order_text.specs.Text.{word_around, word_length, word_start};

use crate::bytes::{ends_figure, mark_length};

// The part of the text's own bytes that is the word around a place: back to the mark or to the last
// byte that ends a figure, and on to the next that does. Behind the text's end stands its last word.
pub fn word_around(text: &[u8], place: usize) -> &[u8]
    ensures { result.now ≡ word_around text.now place }
{
    let start = word_start(text, place.min(text.len()));
    let end = word_end(text, start);
    &text[start..end]
}

// Where the word around a place begins.
fn word_start(text: &[u8], place: usize) -> usize
    requires { place ≤ length text.now }
    ensures { result ≡ word_start text.now place }
{
    let front = mark_length(text);
    // by hand: a position from behind would see the bytes alone, and not the mark's end beside them
    for before in (0..place).rev() {
        let start = before + 1;
        if (start == front) | ends_figure(text[before]) {
            return start;
        }
    }
    0
}

// Where the word that begins at a place ends.
fn word_end(text: &[u8], start: usize) -> usize
    requires { start ≤ length text.now }
    ensures value { result ≡ start + word_length (drop start text.now) }
    ensures upper_bound { result ≤ length text.now }
{
    for end in start..text.len() {
        if ends_figure(text[end]) {
            return end;
        }
    }
    text.len()
}

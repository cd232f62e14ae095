// The depth at a rate and its cause as a line of text, from an order file.
ghost use Rattle.std.specs.Prelude.{◌+◌, ◌≤◌, ◌≡◌, length};
ghost use Rattle.terms.specs.Answer.{on_figures};
ghost use Rattle.terms.specs.Lent.{filled};
ghost use Rattle.terms.specs.Refusals.{says};
ghost use Rattle.causes.specs.Cause.{cause_says, explained_says};
ghost use Rattle.text.specs.PutLaws.{Puts};
ghost use Rattle.services.specs.Services.{cause_fields, explain_in, explained_line};

use crate::figures::explain_for;
use causes::{Cause, Explained};
use terms::{Rate, Refusal};
use text::fills::fill;
use text::lines::{put_depth, put_nothing, put_opening, put_stretch};

// The bytes of the longest line of a depth with its cause.
pub const LONGEST_EXPLAINED: usize = 31;

// Writes the line of the smallest depth that carries an order's trace at a rate, with its cause, into the
// front of the text and answers its length; or a refusal, and the text is as it was: 1 to 5 as reading the
// order gives it, 5 (the rate), 7 (no depth) or 6 (the text is shorter than the line).
pub fn explain_line(order: &[u8], rate: Rate, text: &mut [u8]) -> Result<usize, Refusal>
    ensures result_value { says result ≡ on_figures length (explain_in (length text.old) rate.0 order.now) }
    ensures text_after { text.new ≡ filled (explain_in (length text.old) rate.0 order.now) text.old }
{
    let explained = explain_for(order, rate)?;
    let mut ready = [0u8; LONGEST_EXPLAINED];
    let length = put_explained(&mut ready, 0, explained);
    fill(&ready[..length], text)
}

// The line of a depth with its cause.
fn put_explained(text: &mut [u8], at: usize, explained: Explained) -> usize
    requires { at + length (explained_line (explained_says explained)) ≤ length text.old }
    ensures { Puts text.old at (explained_line (explained_says explained)) text.new result }
{
    let cause = explained.cause;
    let end = put_depth(text, at, explained.depth, b' ');
    put_cause(text, end, cause)
}

// What sets a depth, behind it on its line.
fn put_cause(text: &mut [u8], at: usize, cause: Cause) -> usize
    requires { at + length (cause_fields (cause_says cause)) ≤ length text.old }
    ensures { Puts text.old at (cause_fields (cause_says cause)) text.new result }
{
    match cause {
        Cause::Nothing => put_nothing(text, at),
        Cause::Opening(x) => put_opening(text, at, x.periods),
        Cause::Stretch(x) => put_stretch(text, at, x.first, x.last),
    }
}

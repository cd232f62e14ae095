// An answer as one number. Public only for this crate's calls.
ghost use Rattle.std.specs.Prelude.{◌≡◌};
ghost use Rattle.terms.specs.Answer.{refused};
ghost use Rattle.terms.specs.Refusals.{number_of, says};
ghost use Rattle.depth.specs.Depth.{depth_says};
ghost use Rattle.exports.specs.Answers.{coded};

use terms::{Depth, Refusal};

// A refusal is this and its number. Every figure that is answered is below it.
pub const REFUSED: u64 = 1_000_000_000_000_000_000;

// The number of a refusal.
pub fn coded_refusal(why: Refusal) -> u64
    ensures { result ≡ coded (refused (number_of why)) }
{
    REFUSED + u32::from(why) as u64
}

// The number of an answer that fills something lent: how many entries, or the refusal.
pub fn coded_fill(answer: Result<usize, Refusal>) -> u64
    ensures { result ≡ coded (says answer) }
{
    answer.map_or_else(coded_refusal, |n| n as u64)
}

// The number of a depth's answer: the depth, or the refusal.
pub fn coded_depth(answer: Result<Depth, Refusal>) -> u64
    ensures { result ≡ coded (depth_says answer) }
{
    answer.map_or_else(coded_refusal, |depth| depth.0 as u64)
}

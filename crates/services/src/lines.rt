// The services on one bucket as a line of text, from an order file: the depth at a rate, the trial and
// the single bucket.
ghost use Rattle.std.specs.Prelude.{◌≡◌, length};
ghost use Rattle.terms.specs.Answer.{on_figures};
ghost use Rattle.terms.specs.Lent.{filled};
ghost use Rattle.terms.specs.Refusals.{says};
ghost use Rattle.depth.specs.Depth.{depth_says};
ghost use Rattle.services.specs.Services.{depth_for, depth_from_end_for, depth_in, single_in, trial_in};

use crate::figures::{depth_for, depth_from_end_for, single_for, trial_for};
use terms::{Bucket, Depth, Rate, Refusal};
use text::fills::fill;
use text::lines::{put_depth, put_single_line, put_trial_line};

// The bytes of the longest line of a depth, of any depth of its type.
pub const LONGEST_DEPTH: usize = 18;

// Writes the line of the smallest depth that carries an order's trace at a rate into the front of the
// text and answers its length; or a refusal, and the text is as it was: 1 to 5 as reading the order
// gives it, 5 (the rate), 7 (no depth) or 6 (the text is shorter than the line).
pub fn depth_line(order: &[u8], rate: Rate, text: &mut [u8]) -> Result<usize, Refusal>
    ensures result_value { says result ≡ on_figures length (depth_in (length text.old) (depth_for rate.0 order.now)) }
    ensures text_after { text.new ≡ filled (depth_in (length text.old) (depth_for rate.0 order.now)) text.old }
{
    fill_depth(depth_for(order, rate), text)
}

// The same where the order's demands stand in archive order, last period first.
pub fn depth_from_end_line(order: &[u8], rate: Rate, text: &mut [u8]) -> Result<usize, Refusal>
    ensures result_value { says result ≡ on_figures length (depth_in (length text.old) (depth_from_end_for rate.0 order.now)) }
    ensures text_after { text.new ≡ filled (depth_in (length text.old) (depth_from_end_for rate.0 order.now)) text.old }
{
    fill_depth(depth_from_end_for(order, rate), text)
}

// Writes the line of a depth that was answered, or hands its refusal on.
fn fill_depth(answer: Result<Depth, Refusal>, text: &mut [u8]) -> Result<usize, Refusal>
    ensures result_value { says result ≡ on_figures length (depth_in (length text.old) (depth_says answer)) }
    ensures text_after { text.new ≡ filled (depth_in (length text.old) (depth_says answer)) text.old }
{
    let depth = answer?;
    let mut ready = [0u8; LONGEST_DEPTH];
    let length = put_depth(&mut ready, 0, depth, b'\n');
    fill(&ready[..length], text)
}

// The bytes of the longest line of a trial, of any figures of their types.
pub const LONGEST_TRIAL: usize = 40;

// Writes the line of a trial of a bucket on an order's trace into the front of the text and answers
// its length; or a refusal, and the text is as it was: 1 to 5 as reading the order gives it, 5 (the
// bucket) or 6 (the text is shorter than the line).
pub fn trial_line(order: &[u8], bucket: Bucket, text: &mut [u8]) -> Result<usize, Refusal>
    ensures result_value { says result ≡ on_figures length (trial_in (length text.old) bucket order.now) }
    ensures text_after { text.new ≡ filled (trial_in (length text.old) bucket order.now) text.old }
{
    let figures = trial_for(order, bucket)?;
    let mut ready = [0u8; LONGEST_TRIAL];
    let length = put_trial_line(&mut ready, 0, figures.spare, figures.over);
    fill(&ready[..length], text)
}

// The bytes of the longest line of a single bucket.
pub const LONGEST_SINGLE: usize = 37;

// Writes the line of the single bucket for an order into the front of the text and answers its
// length; or a refusal, and the text is as it was: 1 to 5 as reading the order gives it, 7 (no
// bucket) or 6 (the text is shorter than the line).
pub fn single_line(order: &[u8], text: &mut [u8]) -> Result<usize, Refusal>
    ensures result_value { says result ≡ on_figures length (single_in (length text.old) order.now) }
    ensures text_after { text.new ≡ filled (single_in (length text.old) order.now) text.old }
{
    let priced = single_for(order)?;
    let mut ready = [0u8; LONGEST_SINGLE];
    let length = put_single_line(&mut ready, 0, priced.bucket, priced.cost);
    fill(&ready[..length], text)
}

// The depth at a rate with what sets it: the call that buyers use.
ghost use Rattle.std.specs.Prelude.{◌≡◌};
ghost use Rattle.terms.specs.Answer.{figures};
ghost use Rattle.depth.specs.Depth.{depth_of};
ghost use Rattle.causes.specs.Cause.{cause_of, cause_says, explain_of, explain_says};

use crate::searches::{opening_end, stretch_end, stretch_start};
use bucket::period::starting_tokens;
use depth::depth_at;
use terms::{Bucket, Depth, Rate, Refusal, Tariff};

// The first periods of a trace, so many of them. "Opening" and "stretch" are document 02's words.
#[derive(Clone, Copy)]
pub struct Opening {
    pub periods: u32,
}

// The periods of a trace from one to another, counted from 1.
#[derive(Clone, Copy)]
pub struct Stretch {
    pub first: u32,
    pub last: u32,
}

// What sets a depth: the periods that a depth one smaller falls short of. Nothing sets a depth of 0.
#[derive(Clone, Copy)]
pub enum Cause {
    Nothing,
    Opening(Opening),
    Stretch(Stretch),
}

// A depth and its cause.
#[derive(Clone, Copy)]
pub struct Explained {
    pub depth: Depth,
    pub cause: Cause,
}

// The smallest depth, at most the tariff's cap, that carries the trace at the rate, and its cause: an
// opening that the starting tokens of a depth one smaller fall short of, else a stretch from period 2 or
// later that the smaller depth falls short of, the one that ends first and of those the longest; or
// refusal 3, 5 or 7, as the depth call gives it. Behind that call the trace is gone through at most three
// times, one after the other.
pub fn explain(trace: &[u16], rate: Rate, tariff: Tariff) -> Result<Explained, Refusal>
    ensures { explain_says result ≡ explain_of tariff rate.0 trace.now }
{
    let depth = depth_at(trace, rate, tariff)?;
    let cause = cause_of(trace, rate, tariff, depth);
    Ok(Explained { depth, cause })
}

// The cause of the depth that the depth call answers.
fn cause_of(trace: &[u16], rate: Rate, tariff: Tariff, depth: Depth) -> Cause
    requires { depth_of tariff rate.0 trace.now ≡ figures depth.0 }
    ensures { cause_says result ≡ cause_of tariff rate.0 trace.now depth.0 }
{
    if depth.0 == 0 {
        return Cause::Nothing;
    }
    let smaller = Bucket {
        rate,
        depth: Depth(depth.0 - 1),
    };
    let tokens = starting_tokens(smaller, tariff.factor);
    if let Some(periods) = opening_end(trace, rate, tokens) {
        return Cause::Opening(Opening {
            periods: periods as u32,
        });
    }
    let last = stretch_end(trace, smaller);
    let first = stretch_start(trace, smaller, last);
    Cause::Stretch(Stretch {
        first: first as u32,
        last: last as u32,
    })
}

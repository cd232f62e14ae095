// The trial: how a bucket that the buyer names does on a trace.
ghost use Rattle.std.specs.Prelude.{◌≤◌, ◌≡◌, length};
ghost use Rattle.terms.specs.Limits.{depth_limit, rate_limit};
ghost use Rattle.terms.specs.RangeRules.{FreshRange, PeriodsRange};
ghost use Rattle.terms.specs.Refusals.{says};
ghost use Rattle.bucket.specs.Trace.{gap};
ghost use Rattle.bucket.specs.Trial.{trial_figures, trial_of};

use crate::period::{starting_tokens, step};
use terms::{Bucket, Factor, Rate, Refusal, fresh_in_range, periods_in_range};

// Spare is the least tokens less demand over the periods, below 0 where something is discarded;
// over is what is discarded in all.
#[derive(Clone, Copy)]
pub struct TrialFigures {
    pub spare: i64,
    pub over: u32,
}

// Spare and discards of a fresh bucket on a trace, or refusal 3 or 5. No tariff's caps bind it.
pub fn trial(bucket: Bucket, factor: Factor, trace: &[u16]) -> Result<TrialFigures, Refusal>
    ensures { says result ≡ trial_of bucket factor trace.now }
{
    if !periods_in_range(trace.len()) {
        return Err(Refusal::Periods);
    }
    if !fresh_in_range(bucket, factor) {
        return Err(Refusal::Figure);
    }
    Ok(figures(bucket, factor, trace))
}

// One walk through the trace, first period to last.
fn figures(bucket: Bucket, factor: Factor, trace: &[u16]) -> TrialFigures
    requires fresh_range { FreshRange bucket factor }
    requires periods_range { PeriodsRange (length trace.now) }
    ensures { result ≡ trial_figures bucket factor trace.now }
{
    let rate = bucket.rate;
    let mut held = starting_tokens(bucket, factor);
    let mut spare = to_spare(rate, held, trace[0]);
    let mut over: u32 = 0;
    for &demand in trace {
        spare = spare.min(to_spare(rate, held, demand));
        let period = step(bucket, held, demand);
        over += period.over;
        held = period.held;
    }
    TrialFigures { spare, over }
}

// The tokens of a period less its demand.
fn to_spare(rate: Rate, held: u32, demand: u16) -> i64
    requires rate_le_rate_limit { rate.0 ≤ rate_limit }
    requires held_le_depth_limit { held ≤ depth_limit }
    ensures { result ≡ gap rate.0 held demand }
{
    let tokens = (held + rate.0) as i64;
    let wanted = demand as i64;
    tokens - wanted
}

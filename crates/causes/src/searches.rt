// The periods that a bucket falls short of, each found in one walk through a trace.
ghost use Rattle.std.specs.Prelude.{◌≤◌, ◌≡◌, length};
ghost use Rattle.terms.specs.Answer.{figure_or};
ghost use Rattle.terms.specs.Limits.{depth_limit, rate_limit};
ghost use Rattle.terms.specs.RangeRules.{BucketRange, PeriodsRange};
ghost use Rattle.causes.specs.Cause.{number_found, opening_end, stretch_end, stretch_start};

use terms::{Bucket, Rate};

// How many first periods need more than the tokens, the least such number; or none.
pub fn opening_end(trace: &[u16], rate: Rate, tokens: u32) -> Option<usize>
    requires periods_range { PeriodsRange (length trace.now) }
    requires rate_le_rate_limit { rate.0 ≤ rate_limit }
    requires tokens_le_depth_limit { tokens ≤ depth_limit }
    ensures { number_found result ≡ opening_end rate.0 tokens trace.now }
{
    let mut demands: u32 = 0;
    let mut tokens = tokens;
    for (i, &demand) in trace.iter().enumerate() {
        demands += demand as u32;
        tokens += rate.0;
        if tokens < demands {
            return Some(i + 1);
        }
    }
    None
}

// The last period of the stretch, from period 2 or later, that needs more than the depth and ends first;
// or that of the trace where there is none. The need of the neediest stretch goes along.
pub fn stretch_end(trace: &[u16], bucket: Bucket) -> usize
    requires periods_range { PeriodsRange (length trace.now) }
    requires bucket_range { BucketRange bucket }
    ensures { result ≡ figure_or (stretch_end bucket.rate.0 bucket.depth.0 trace.now) (length trace.now) }
{
    let mut need: u32 = 0;
    for (i, &demand) in trace[1..].iter().enumerate() {
        need = (need + demand as u32).saturating_sub(bucket.rate.0);
        if bucket.depth.0 < need {
            return i + 2;
        }
    }
    trace.len()
}

// The first period of the longest stretch, from period 2 or later, that ends with the last and needs more
// than the depth; or the last where there is none. It goes from there back to period 2.
pub fn stretch_start(trace: &[u16], bucket: Bucket, last: usize) -> usize
    requires periods_range { PeriodsRange (length trace.now) }
    requires bucket_range { BucketRange bucket }
    requires le_last { 1 ≤ last }
    requires last_in_bounds { last ≤ length trace.now }
    ensures { result ≡ figure_or (stretch_start bucket.rate.0 bucket.depth.0 trace.now last) last }
{
    // where there is none it is the last, which is the answer then
    let mut first = last;
    let mut demands: u32 = 0;
    let mut tokens = bucket.depth.0;
    // by hand: as a chain it would enumerate, take, skip and turn round at once
    for i in (1..last).rev() {
        demands += trace[i] as u32;
        tokens += bucket.rate.0;
        if tokens < demands {
            first = i + 1;
        }
    }
    first
}

// One period of a bucket, and the tokens it starts with. Public only for this crate's trial and the
// crate above, which show what each function requires.
ghost use Rattle.std.specs.Prelude.{◌≤◌, ◌≡◌};
ghost use Rattle.terms.specs.Limits.{depth_limit};
ghost use Rattle.terms.specs.RangeRules.{BucketRange, FreshRange};
ghost use Rattle.bucket.specs.Step.{start_of, period_of};

use terms::{Bucket, Factor};

// What one period does, in tokens: sent, over (discarded), lost, and held into the next period.
#[derive(Clone, Copy)]
pub struct Period {
    pub sent: u32,
    pub over: u32,
    pub lost: u32,
    pub held: u32,
}

// The tokens that a fresh bucket holds: p × depth / q, rounded down.
pub fn starting_tokens(bucket: Bucket, factor: Factor) -> u32
    requires { FreshRange bucket factor }
    ensures { result ≡ start_of factor.p factor.q bucket.depth.0 }
{
    factor.p * bucket.depth.0 / factor.q
}

// One period with `held` tokens and a demand of kilobits.
pub fn step(bucket: Bucket, held: u32, demand: u16) -> Period
    requires bucket_range { BucketRange bucket }
    requires held_le_depth_limit { held ≤ depth_limit }
    ensures { result ≡ period_of bucket.rate.0 bucket.depth.0 held demand }
{
    let tokens = held + bucket.rate.0;
    let demand = demand as u32;
    let sent = demand.min(tokens);
    let left = tokens - sent;
    let next = bucket.depth.0.min(left);
    Period {
        sent,
        over: demand - sent,
        lost: left - next,
        held: next,
    }
}

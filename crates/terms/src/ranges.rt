// The ranges of a factor, a bucket, a bucket record, a tariff and a number of periods.
ghost use Rattle.std.specs.Prelude.{◌≡◌};
ghost use Rattle.terms.specs.Ranges.{factor_ok, bucket_ok, fresh_ok, record_ok, tariff_ok, periods_ok};

use crate::limits::{DEPTH_LIMIT, FEE_LIMIT, PARTS_LIMIT, PRICE_LIMIT, RATE_LIMIT, TRACE_LIMIT};
use crate::{Bucket, BucketRecord, Factor, Tariff};

// Whether q is 1 to 1,000 and p at most q.
pub fn factor_in_range(f: Factor) -> bool
    ensures { result ≡ factor_ok f }
{
    (f.p <= f.q) & (1 <= f.q) & (f.q <= PARTS_LIMIT)
}

// Whether the rate is at most 4,095 and the depth at most 1,000,000.
pub fn bucket_in_range(b: Bucket) -> bool
    ensures { result ≡ bucket_ok b }
{
    (b.rate.0 <= RATE_LIMIT) & (b.depth.0 <= DEPTH_LIMIT)
}

// Whether a bucket can be set up fresh with a factor: both are in their ranges.
pub fn fresh_in_range(b: Bucket, f: Factor) -> bool
    ensures { result ≡ fresh_ok b f }
{
    bucket_in_range(b) & factor_in_range(f)
}

// Whether the run has at least one period and the bucket is in its range.
pub fn record_in_range(x: BucketRecord) -> bool
    ensures { result ≡ record_ok x }
{
    let bucket = x.bucket;
    (1 <= x.periods) & bucket_in_range(bucket)
}

// Whether each of the seven figures is in its range.
pub fn tariff_in_range(t: Tariff) -> bool
    ensures { result ≡ tariff_ok t }
{
    let factor = t.factor;
    (t.rate_price.0 <= PRICE_LIMIT)
        & (t.depth_price.0 <= PRICE_LIMIT)
        & (t.fee <= FEE_LIMIT)
        & factor_in_range(factor)
        & (t.rate_cap.0 <= RATE_LIMIT)
        & (t.depth_cap.0 <= DEPTH_LIMIT)
}

// Whether a trace, or a run, may have n periods: 1 to 512.
pub fn periods_in_range(n: usize) -> bool
    ensures { result ≡ periods_ok n }
{
    (1 <= n) & (n <= TRACE_LIMIT)
}

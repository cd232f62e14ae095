// What a bucket costs. Public only for this crate's search and for the crates above, which show
// what each function requires.
ghost use Rattle.std.specs.Prelude.{◌≤◌, ◌≡◌};
ghost use Rattle.terms.specs.Limits.{trace_limit};
ghost use Rattle.terms.specs.RangeRules.{BucketRange, TariffRange};
ghost use Rattle.single.specs.Cost.{billed, charge_of, cost_at, cost_of, priced_at};
ghost use Rattle.single.specs.CostLaws.{Dear, period_limit, rest_limit};

use spans::narrow::CHARGE_END;
use terms::{Bucket, Tariff};

// A bucket and what it costs.
#[derive(Clone, Copy)]
pub struct Priced {
    pub bucket: Bucket,
    pub cost: u64,
}

// What a bucket costs in a period, without the fee.
pub fn charge_of(tariff: Tariff, bucket: Bucket) -> u64
    requires tariff_range { TariffRange tariff }
    requires bucket_range { BucketRange bucket }
    ensures { result ≡ charge_of tariff bucket }
{
    let rate = tariff.rate_price.0 as u64 * bucket.rate.0 as u64;
    let depth = tariff.depth_price.0 as u64 * bucket.depth.0 as u64;
    rate + depth
}

// The periods that a run is billed for: its exact length.
pub fn billed_periods(tariff: Tariff, periods: u64) -> u64
    ensures { result ≡ billed tariff periods }
{
    periods
}

// What a run costs at a charge: that for each period billed, and the fee.
pub fn cost_at(tariff: Tariff, periods: u64, charge: u64) -> u64
    requires tariff_range { TariffRange tariff }
    requires periods_le_trace_limit { periods ≤ trace_limit }
    requires charge_le_period_limit { charge ≤ period_limit }
    ensures { result ≡ cost_at tariff periods charge }
{
    charge * billed_periods(tariff, periods) + tariff.fee as u64
}

// The least charge at which a run of so many periods costs, with the rest, more than so much; no
// charge comes to the answer's limit.
pub fn dear_from(tariff: Tariff, periods: u64, rest: u64, most: u64) -> u64
    requires tariff_range { TariffRange tariff }
    requires le_periods { 1 ≤ periods }
    requires rest_le_rest_limit { rest ≤ rest_limit }
    requires most_le_rest_limit { most ≤ rest_limit }
    ensures { Dear tariff periods rest most result }
{
    let others = tariff.fee as u64 + rest;
    if most < others {
        return 0;
    }
    let dear = (most - others) / billed_periods(tariff, periods) + 1;
    dear.min(CHARGE_END)
}

// The cost of a bucket over a number of periods, its set-up fee included.
pub fn cost_of(tariff: Tariff, periods: u64, bucket: Bucket) -> u64
    requires tariff_range { TariffRange tariff }
    requires periods_le_trace_limit { periods ≤ trace_limit }
    requires bucket_range { BucketRange bucket }
    ensures { result ≡ cost_of tariff periods bucket }
{
    cost_at(tariff, periods, charge_of(tariff, bucket))
}

// A bucket with its cost over a number of periods.
pub fn with_cost(tariff: Tariff, periods: u64, bucket: Bucket) -> Priced
    requires tariff_range { TariffRange tariff }
    requires periods_le_trace_limit { periods ≤ trace_limit }
    requires bucket_range { BucketRange bucket }
    ensures { result ≡ priced_at tariff periods bucket }
{
    let cost = cost_of(tariff, periods, bucket);
    Priced { bucket, cost }
}

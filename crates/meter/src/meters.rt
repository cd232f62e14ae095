// The meter: a bucket run a period at a time on what is offered, with running totals.
ghost use Rattle.std.specs.Prelude.{◌≡◌, Err};
ghost use Rattle.terms.specs.RangeRules.{FreshRange};
ghost use Rattle.terms.specs.Answer.{figures};
ghost use Rattle.terms.specs.Refusals.{says};
ghost use Rattle.meter.specs.Meter.{totals_ok, balanced, meter_ok, open_of, record_after, Answered};
ghost use Rattle.meter.specs.MeterLaws.{TotalsRange};

use bucket::period::{Period, starting_tokens, step};
use terms::limits::{DEMAND_LIMIT, METER_LIMIT, TOTAL_LIMIT};
use terms::{Bucket, Factor, Refusal, fresh_in_range};

// A meter's record: the bucket and the factor it was set up with, the tokens it holds, the periods
// so far, and what was sent, over (discarded) and lost in all of them.
#[derive(Clone, Copy)]
pub struct Meter {
    pub bucket: Bucket,
    pub factor: Factor,
    pub held: u32,
    pub periods: u32,
    pub sent: u64,
    pub over: u64,
    pub lost: u64,
}

// The record that comes back from an offer, and the offer's answer.
#[derive(Clone, Copy)]
pub struct Offered {
    pub meter: Meter,
    pub answer: Result<Period, Refusal>,
}

// A meter on a fresh bucket, or refusal 5.
pub fn open_meter(bucket: Bucket, factor: Factor) -> Result<Meter, Refusal>
    ensures { says result ≡ open_of bucket factor }
{
    if !fresh_in_range(bucket, factor) {
        return Err(Refusal::Figure);
    }
    let held = starting_tokens(bucket, factor);
    Ok(Meter {
        bucket,
        factor,
        held,
        periods: 0,
        sent: 0,
        over: 0,
        lost: 0,
    })
}

// One period of a meter with an offer of kilobits, or refusal 8 or 9, and then the record comes
// back as it was. The record may be any at all.
#[tactic(auto, unfolding(crate::specs::Meter::offer_of))]
pub fn offer(meter: Meter, demand: u16) -> Offered
    ensures { Answered meter demand result }
{
    if !record_in_order(meter) {
        return refuse(meter, Refusal::Meter);
    }
    let period = step(meter.bucket, meter.held, demand);
    let next = counted(meter, period);
    if METER_LIMIT < next.periods {
        return refuse(meter, Refusal::Full);
    }
    Offered {
        meter: next,
        answer: Ok(period),
    }
}

// A refusal with the record that comes back.
fn refuse(meter: Meter, why: Refusal) -> Offered
    ensures { result ≡ record { meter = meter; answer = Err why } }
{
    Offered {
        meter,
        answer: Err(why),
    }
}

// The record with one period more, counted in each total.
fn counted(m: Meter, period: Period) -> Meter
    requires { TotalsRange m }
    ensures { result ≡ record_after m (figures period) }
{
    Meter {
        held: period.held,
        periods: m.periods + 1,
        sent: m.sent + period.sent as u64,
        over: m.over + period.over as u64,
        lost: m.lost + period.lost as u64,
        ..m
    }
}

// Whether a record breaks none of the rules of refusal 8.
#[tactic(auto, unfolding(crate::specs::Meter::meter_ok))]
fn record_in_order(m: Meter) -> bool
    ensures { result ≡ meter_ok m }
{
    fresh_in_range(m.bucket, m.factor) && totals_in_range(m) && balances(m)
}

// Whether tokens, periods and totals are within their limits.
fn totals_in_range(m: Meter) -> bool
    ensures { result ≡ totals_ok m }
{
    m.held <= m.bucket.depth.0
        && m.periods <= METER_LIMIT
        && m.sent <= TOTAL_LIMIT
        && m.over <= TOTAL_LIMIT
        && m.lost <= TOTAL_LIMIT
        && m.over <= DEMAND_LIMIT as u64 * m.periods as u64
}

// Whether the starting tokens and the rate of each period are what was sent, lost and is held.
fn balances(m: Meter) -> bool
    requires fresh_range { FreshRange m.bucket m.factor }
    requires totals_range { TotalsRange m }
    ensures { result ≡ balanced m }
{
    let start = starting_tokens(m.bucket, m.factor);
    let gained = m.bucket.rate.0 as u64 * m.periods as u64;
    start as u64 + gained == m.sent + m.lost + m.held as u64
}

// The single bucket: the call that planners use.
ghost use Rattle.std.specs.Prelude.{◌≡◌, length};
ghost use Rattle.terms.specs.RangeRules.{PeriodsRange, TariffRange};
ghost use Rattle.terms.specs.Refusals.{says};
ghost use Rattle.single.specs.Rates.{dearer};
ghost use Rattle.single.specs.Single.{cheapest_of, single_of};

use crate::costs::{Priced, with_cost};
use crate::preference::better_of;
use crate::rates::rates_to_weigh;
use depth::depth_at;
use terms::{Bucket, Depth, Rate, Refusal, Tariff, periods_in_range, tariff_in_range};

// The bucket inside the tariff's caps that carries the trace at least cost, equal costs going to
// the smaller rate and then the smaller depth; or refusal 3, 5 or 7 (no such bucket).
#[tactic(auto, unfolding(crate::specs::Single::single_of))]
pub fn single(trace: &[u16], tariff: Tariff) -> Result<Priced, Refusal>
    ensures { says result ≡ single_of tariff trace.now }
{
    if !periods_in_range(trace.len()) {
        return Err(Refusal::Periods);
    }
    if !tariff_in_range(tariff) {
        return Err(Refusal::Figure);
    }
    cheapest(trace, tariff)
}

// Weighs the candidate rates from 0 on, each at its smallest depth, until those left cost more
// than what is found even at depth 0.
fn cheapest(trace: &[u16], tariff: Tariff) -> Result<Priced, Refusal>
    requires periods_range { PeriodsRange (length trace.now) }
    requires tariff_range { TariffRange tariff }
    ensures { says result ≡ cheapest_of tariff trace.now }
{
    let periods = trace.len() as u64;
    let end = rates_to_weigh(trace, tariff);
    let mut best = Err(Refusal::NoPlan);
    for next in 0..end {
        let rate = Rate(next);
        let Ok(depth) = depth_at(trace, rate, tariff) else {
            continue;
        };
        let here = with_cost(tariff, periods, Bucket { rate, depth });
        let floor = with_cost(
            tariff,
            periods,
            Bucket {
                rate,
                depth: Depth(0),
            },
        );
        best = better_of(best, here);
        if costs_less(best, floor) {
            return best;
        }
    }
    best
}

// Whether a bucket is found and costs less than another.
fn costs_less(a: Result<Priced, Refusal>, floor: Priced) -> bool
    ensures { result ≡ dearer floor (says a) }
{
    a.is_ok_and(|x| x.cost < floor.cost)
}

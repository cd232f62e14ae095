// The runs from one start on, weighed at some rates. Public only for this crate's search, which
// shows what each function requires.
ghost use Rattle.std.specs.Prelude.{◌+◌, ◌≤◌, ◌<◌, ◌≡◌};
ghost use Rattle.terms.specs.Limits.{trace_limit};
ghost use Rattle.terms.specs.RangeRules.{TariffRange};
ghost use Rattle.single.specs.Cost.{cost_at};
ghost use Rattle.single.specs.CostLaws.{period_limit};
ghost use Rattle.first_runs.specs.Outline.{unpriced};
ghost use Rattle.first_runs.specs.Search.{PassesOver, Searches, Weighs};

use crate::charges::Charged;
use crate::outlines::{Choice, Outline, better_of};
use single::costs::cost_at;
use terms::{Rate, Tariff};

// A search from one start on: the demands from there on and the tariff, by the length of a first run, less
// 1, the cost and the buckets of the best cutting of what is left, and the charges at which a walk stops.
#[derive(Clone, Copy)]
pub struct Search<'a> {
    pub trace: &'a [u16],
    pub tariff: Tariff,
    pub costs: &'a [u64],
    pub counts: &'a [u32],
    pub stops: &'a [u64],
}

impl<'a> Search<'a> {
    // Weighs the rates from low to below end, unless none of them can better what is found.
    pub fn weigh_rates(self, low: u32, end: u32, found: Choice) -> Choice
        requires low_lt_end { low < end }
        requires end_bound { end ≤ self.tariff.rate_cap.0 + 1 }
        requires searching { Searches self found }
        ensures { Weighs self.entry low end found result }
    {
        if !self.may_better(Rate(low), Rate(end - 1), found) {
            return found;
        }
        let mut best = found;
        for next in low..end {
            best = self.weigh_rate(Rate(next), best);
        }
        best
    }

    // One walk to the right at one rate, which weighs every run that it passes. It stops where every
    // longer run costs more than what is found.
    pub fn weigh_rate(self, rate: Rate, found: Choice) -> Choice
        requires rate_bound { rate.0 ≤ self.tariff.rate_cap.0 }
        requires searching { Searches self found }
        ensures { Weighs self.entry rate.0 (rate.0 + 1) found result }
    {
        let mut best = found;
        let mut walk = Charged::new();
        for (i, &demand) in self.trace.iter().enumerate() {
            walk = walk.push(self.tariff, rate, rate, demand);
            if self.stops[i] <= walk.charge {
                return best;
            }
            let outline = Outline {
                cost: cost_with(self.tariff, i, walk.charge, self.costs[i]),
                buckets: self.counts[i] + 1,
                first: i as u32 + 1,
            };
            best = better_of(best, Choice { outline, rate });
        }
        best
    }

    // Whether some run at a rate from low to high may cost as little as what is found: none costs less
    // than the low rate with the depth that the high one needs. It walks as a weighing does, but each of the
    // two loops ends in its own way, and one loop for both would call a closure in each period.
    fn may_better(self, low: Rate, high: Rate, found: Choice) -> bool
        requires low_le_high { low.0 ≤ high.0 }
        requires high_bound { high.0 ≤ self.tariff.rate_cap.0 }
        requires searching { Searches self found }
        ensures { PassesOver self.entry low.0 high.0 found result }
    {
        let mut walk = Charged::new();
        for (i, &demand) in self.trace.iter().enumerate() {
            walk = walk.push(self.tariff, high, low, demand);
            if self.stops[i] <= walk.charge {
                return false;
            }
            if cost_with(self.tariff, i, walk.charge, self.costs[i]) <= found.outline.cost {
                return true;
            }
        }
        false
    }
}

// What a run of i + 1 periods costs with the rest after it.
fn cost_with(tariff: Tariff, i: usize, charge: u64, rest: u64) -> u64
    requires tariff_range { TariffRange tariff }
    requires i_lt_trace_limit { i < trace_limit }
    requires charge_le_period_limit { charge ≤ period_limit }
    requires rest_le_unpriced { rest ≤ unpriced }
    ensures { result ≡ cost_at tariff (i + 1) charge + rest }
{
    cost_at(tariff, i as u64 + 1, charge) + rest
}

// The charge of a walk through a trace, and from which charge on it can stop. Public only for this
// crate's search, which shows what each function requires.
ghost use Rattle.std.specs.Prelude.{◌-◌, ◌≤◌, ◌≡◌};
ghost use Rattle.terms.specs.Answer.{figures};
ghost use Rattle.terms.specs.Limits.{trace_limit};
ghost use Rattle.terms.specs.RangeRules.{TariffRange};
ghost use Rattle.depth.specs.Depth.{depth_says};
ghost use Rattle.depth.specs.Walk.{started};
ghost use Rattle.depth.specs.WalkRanges.{WalkRange};
ghost use Rattle.first_runs.specs.Charge.{CostRange, Stepped, Stops, StopsAt, walk_depth};
ghost use Rattle.first_runs.specs.Outline.{unpriced};

use depth::walk::Walk;
use single::costs::{billed_periods, charge_of};
use terms::limits::TRACE_LIMIT;
use terms::{Bucket, Depth, Rate, Refusal, Tariff};

// Stands for the charge where no depth inside the cap serves. Every charge is below it.
const NO_CHARGE: u64 = 2_000_000_000_000_000_000;

// A walk, the depth that it needs, and what that costs in a period.
#[derive(Clone, Copy)]
pub struct Charged {
    pub walk: Walk,
    pub depth: Depth,
    pub charge: u64,
}

impl Charged {
    // Before any period.
    pub fn new() -> Charged
        ensures walk_value { result.walk ≡ started }
        ensures depth_value { result.depth.0 ≡ 0 }
    {
        Charged {
            walk: Walk::new(),
            depth: Depth(0),
            charge: 0,
        }
    }

    // One period more at the high rate. The charge is that of the low one.
    pub fn push(self, tariff: Tariff, high: Rate, low: Rate, demand: u16) -> Charged
        requires tariff_range { TariffRange tariff }
        requires high_bound { high.0 ≤ tariff.rate_cap.0 }
        requires low_bound { low.0 ≤ tariff.rate_cap.0 }
        requires walk_range { WalkRange (trace_limit - 1) self.walk }
        requires walk_value { walk_depth tariff self.walk ≡ figures self.depth.0 }
        ensures { Stepped tariff high.0 low.0 demand self result }
    {
        let old = self.walk;
        let before = self.depth;
        let walk = old.push(high, demand);
        let Ok(depth) = depth_after(old, before, walk, tariff) else {
            return Charged {
                walk,
                depth: before,
                charge: NO_CHARGE,
            };
        };
        let charge = charge_of(tariff, Bucket { rate: low, depth });
        Charged {
            walk,
            depth,
            charge,
        }
    }
}

// The depth that a walk needs one period on. While the opening is as it was, what was needed before
// and the stretch give it, and nothing is divided.
fn depth_after(old: Walk, depth: Depth, new: Walk, tariff: Tariff) -> Result<Depth, Refusal>
    requires tariff_range { TariffRange tariff }
    requires walk_range { WalkRange trace_limit new }
    requires stretch_le_stretch { old.stretch ≤ new.stretch }
    requires value { walk_depth tariff old ≡ figures depth.0 }
    ensures { depth_says result ≡ walk_depth tariff new }
{
    if old.opening != new.opening {
        return new.depth(tariff.factor, tariff.depth_cap);
    }
    if tariff.depth_cap.0 < new.stretch {
        return Err(Refusal::NoPlan);
    }
    Ok(Depth(depth.0.max(new.stretch)))
}

// By the length of a first run, less 1: the least charge at which no run of that length or longer,
// with the best cutting of what is left, costs as little as what is known.
pub fn stops_of(costs: &[u64], tariff: Tariff, known: u64) -> [u64; TRACE_LIMIT]
    requires cost_range { CostRange costs.now }
    requires tariff_range { TariffRange tariff }
    requires known_le_unpriced { known ≤ unpriced }
    ensures { Stops tariff known costs.now result }
{
    let mut stops = [0u64; TRACE_LIMIT];
    let mut charge: u64 = 0;
    // by the number: it places cost and stop, and one more is how many periods are billed
    for i in (0..costs.len()).rev() {
        let billed = billed_periods(tariff, i as u64 + 1);
        let stop = stop_at(known, tariff.fee as u64 + costs[i], billed);
        charge = charge.max(stop);
        stops[i] = charge;
    }
    stops
}

// The least charge at which so many periods and the rest cost more than what is known.
fn stop_at(known: u64, rest: u64, periods: u64) -> u64
    requires le_periods { 1 ≤ periods }
    requires known_le_unpriced { known ≤ unpriced }
    ensures { StopsAt known rest periods result }
{
    if known < rest {
        return 0;
    }
    (known - rest) / periods + 1
}

// A walk through a trace at one rate, with the parts of the trace that set its needs. A part needs its
// demands less the rate for each of its periods, so its length tells what it needs at every other rate.
// Public only for the crates above, which show what each function requires.
ghost use Rattle.std.specs.Prelude.{◌-◌, ◌≤◌, ◌≡◌};
ghost use Rattle.terms.specs.Limits.{rate_limit, trace_limit};
ghost use Rattle.spans.specs.Parts.{Grown, PartsRange, no_parts};

use depth::walk::Walk;
use terms::Rate;

// A walk, and how many periods it has gone through; how many of these set the opening, end here with a
// need, and set the stretch.
#[derive(Clone, Copy)]
pub struct Parts {
    pub walk: Walk,
    pub periods: u32,
    pub opening: u32,
    pub ending: u32,
    pub stretch: u32,
}

impl Parts {
    // Before any period.
    pub fn new() -> Parts
        ensures { result ≡ no_parts }
    {
        Parts {
            walk: Walk::new(),
            periods: 0,
            opening: 0,
            ending: 0,
            stretch: 0,
        }
    }

    // One period more.
    pub fn push(self, rate: Rate, demand: u16) -> Parts
        requires parts_range { PartsRange (trace_limit - 1) self }
        requires rate_le_rate_limit { rate.0 ≤ rate_limit }
        ensures { Grown rate.0 demand self result }
    {
        let old = self.walk;
        let walk = old.push(rate, demand);
        let periods = self.periods + 1;
        let ending = if walk.ending == 0 { 0 } else { self.ending + 1 };
        let opening = if old.opening < walk.opening {
            periods
        } else {
            self.opening
        };
        let stretch = if old.stretch < walk.stretch {
            ending
        } else {
            self.stretch
        };
        Parts {
            walk,
            periods,
            opening,
            ending,
            stretch,
        }
    }
}

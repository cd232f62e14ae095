// One walk through a trace at a rate, a period at a time. Public only for this crate's depth call
// and for the crates above, which show what each function requires.
ghost use Rattle.std.specs.Prelude.{◌-◌, ◌*◌, ◌≤◌, ◌≡◌};
ghost use Rattle.terms.specs.Limits.{rate_limit, depth_limit, parts_limit, trace_limit};
ghost use Rattle.terms.specs.RangeRules.{FactorRange};
ghost use Rattle.depth.specs.Depth.{depth_says};
ghost use Rattle.depth.specs.Walk.{started, pushed, turned, ceiling, depth_from};
ghost use Rattle.depth.specs.WalkRanges.{WalkRange};

use terms::{Depth, Factor, Rate, Refusal};

// What the periods so far ask for, in tokens.
#[derive(Clone, Copy)]
pub struct Walk {
    // all demands
    pub sum: u32,
    // all tokens gained: the rate for each period
    pub gained: u32,
    // what the bucket must start with: the most by which demands have run ahead of tokens gained
    pub opening: u32,
    // the need of the neediest stretch of periods that ends here: its demands less its tokens
    pub ending: u32,
    // what the bucket must hold: the greatest such need so far
    pub stretch: u32,
}

impl Walk {
    // Before any period.
    pub fn new() -> Walk
        ensures { result ≡ started }
    {
        Walk {
            sum: 0,
            gained: 0,
            opening: 0,
            ending: 0,
            stretch: 0,
        }
    }

    // One period more.
    #[tactic(auto, unfolding(crate::specs::Walk::pushed))]
    pub fn push(self, rate: Rate, demand: u16) -> Walk
        requires walk_range { WalkRange (trace_limit - 1) self }
        requires rate_le_rate_limit { rate.0 ≤ rate_limit }
        ensures { result ≡ pushed rate.0 self demand }
    {
        let sum = self.sum + demand as u32;
        let gained = self.gained + rate.0;
        let ending = (self.ending + demand as u32).saturating_sub(rate.0);
        Walk {
            sum,
            gained,
            opening: self.opening.max(sum.saturating_sub(gained)),
            ending,
            stretch: self.stretch.max(ending),
        }
    }

    // The walk of the same periods, the last of them first.
    pub fn turned(self) -> Walk
        ensures { result ≡ turned self }
    {
        Walk {
            opening: self.ending,
            ending: self.opening,
            ..self
        }
    }

    // The smallest depth, at most the cap, that meets the needs so far, or refusal 7.
    pub fn depth(self, factor: Factor, cap: Depth) -> Result<Depth, Refusal>
        requires factor_range { FactorRange factor }
        requires cap_le_depth_limit { cap.0 ≤ depth_limit }
        requires walk_range { WalkRange trace_limit self }
        ensures { depth_says result ≡ depth_from factor.p factor.q cap.0 self }
    {
        let opening = self.opening as u64 * factor.q as u64;
        let most = factor.p as u64 * cap.0 as u64;
        if cap.0 < self.stretch || most < opening {
            return Err(Refusal::NoPlan);
        }
        if opening == 0 {
            return Ok(Depth(self.stretch));
        }
        let fresh = (opening as u32).div_ceil(factor.p);
        Ok(Depth(self.stretch.max(fresh)))
    }
}

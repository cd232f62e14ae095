// The depth at a rate: the calls that planners use, on a trace and on one in archive order.
ghost use Rattle.std.specs.Prelude.{◌≤◌, ◌≡◌, length};
ghost use Rattle.terms.specs.Limits.{rate_limit};
ghost use Rattle.terms.specs.RangeRules.{PeriodsRange};
ghost use Rattle.terms.specs.Refusals.{says};
ghost use Rattle.depth.specs.Depth.{depth_from_end, depth_of, depth_says, rate_ok};
ghost use Rattle.depth.specs.Walk.{walk_of};
ghost use Rattle.depth.specs.Walked.{walk_for};

use crate::walk::Walk;
use terms::{Depth, Rate, Refusal, Tariff, periods_in_range, tariff_in_range};

// The smallest depth, at most the tariff's cap, that carries the trace at the rate; or refusal 3,
// 5 (a tariff figure, or the rate above the rate cap) or 7 (no such depth).
pub fn depth_at(trace: &[u16], rate: Rate, tariff: Tariff) -> Result<Depth, Refusal>
    ensures { depth_says result ≡ depth_of tariff rate.0 trace.now }
{
    let walk = walk_through(trace, rate, tariff)?;
    walk.depth(tariff.factor, tariff.depth_cap)
}

// The same of a trace in archive order, last period first. It goes through the list once, as it comes:
// the need that ends at a period of the list is what is needed before that period of the trace. The last
// of these needs is the trace's opening, and the greatest its stretch.
pub fn depth_from_end(list: &[u16], rate: Rate, tariff: Tariff) -> Result<Depth, Refusal>
    ensures { depth_says result ≡ depth_from_end tariff rate.0 list.now }
{
    let walk = walk_through(list, rate, tariff)?;
    walk.turned().depth(tariff.factor, tariff.depth_cap)
}

// Weighs what the calls are given and walks through the list; or refusal 3 or 5.
#[tactic(auto, unfolding(crate::specs::Walked::walk_for))]
fn walk_through(list: &[u16], rate: Rate, tariff: Tariff) -> Result<Walk, Refusal>
    ensures { says result ≡ walk_for tariff rate.0 list.now }
{
    if !periods_in_range(list.len()) {
        return Err(Refusal::Periods);
    }
    if !rate_in_range(rate, tariff) {
        return Err(Refusal::Figure);
    }
    Ok(walked(list, rate))
}

// One walk through a list of demands, first to last.
#[tactic(auto, using(crate::specs::WalkLaws::walk_next), unfolding(crate::specs::Walk::walk_of))]
fn walked(list: &[u16], rate: Rate) -> Walk
    requires periods_range { PeriodsRange (length list.now) }
    requires rate_le_rate_limit { rate.0 ≤ rate_limit }
    ensures { result ≡ walk_of rate.0 list.now }
{
    let mut walk = Walk::new();
    for &demand in list {
        walk = walk.push(rate, demand);
    }
    walk
}

// Whether every figure of the tariff is in its range and the rate at most the rate cap.
fn rate_in_range(rate: Rate, tariff: Tariff) -> bool
    ensures { result ≡ rate_ok tariff rate.0 }
{
    tariff_in_range(tariff) && rate.0 <= tariff.rate_cap.0
}

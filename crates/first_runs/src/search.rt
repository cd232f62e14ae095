// The search from one start on. Public only for the crate above, which shows what is required.
ghost use Rattle.std.specs.Prelude.{◌≤◌};
ghost use Rattle.single.specs.Rates.{weighed};
ghost use Rattle.first_runs.specs.Charge.{Far};
ghost use Rattle.first_runs.specs.Search.{Searches, Weighs};
ghost use Rattle.first_runs.specs.SearchLaws.{BestFirst, Rests};

use crate::charges::stops_of;
use crate::outlines::{Choice, Outline, UNPRICED};
use crate::runs::Search;
use single::rates::rates_to_weigh;
use terms::{Rate, Tariff};

// A charge that no walk stops at. A number and no Option: the definition `Far` says it so.
pub const FAR: u64 = UNPRICED + 1;

// How many rates are looked at together before each of them is weighed.
const TOGETHER: u32 = 16;

// The best cutting of some periods. The lists hold the cost and the buckets of the best cutting of
// what is left after 1, 2, 3, .. of them. The rate to begin with only makes the search shorter: it gives
// a cost to stop at.
pub fn best_first(
    trace: &[u16],
    tariff: Tariff,
    begin: Rate,
    far: &[u64],
    costs: &[u64],
    counts: &[u32],
) -> Choice
    requires begin_bound { begin.0 ≤ tariff.rate_cap.0 }
    requires far { Far far.now }
    requires rests { Rests tariff trace.now costs.now counts.now }
    ensures { BestFirst tariff trace.now costs.now counts.now result }
{
    let none = Choice {
        outline: Outline {
            cost: UNPRICED,
            buckets: 0,
            first: 0,
        },
        rate: begin,
    };
    let first = Search {
        trace,
        tariff,
        costs,
        counts,
        stops: far,
    };
    let found = first.weigh_rate(begin, none);
    let stops = stops_of(costs, tariff, found.outline.cost);
    let search = Search {
        stops: &stops,
        ..first
    };
    weigh_all(search, found)
}

// Weighs the candidate rates.
fn weigh_all(search: Search<'_>, found: Choice) -> Choice
    requires { Searches search found }
    ensures { Weighs search.entry 0 (weighed search.entry.tariff search.entry.trace.now) found result }
{
    let end = rates_to_weigh(search.trace, search.tariff);
    let mut best = found;
    for low in (0..end).step_by(TOGETHER as usize) {
        let next = (low + TOGETHER).min(end);
        best = search.weigh_rates(low, next, best);
    }
    best
}

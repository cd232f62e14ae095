// The best cutting of what is left of a trace from each period on. Public only for this crate's
// call, which shows what is required.
ghost use Rattle.std.specs.Prelude.{◌≤◌, length};
ghost use Rattle.terms.specs.Limits.{trace_limit};
ghost use Rattle.terms.specs.RangeRules.{TariffRange};
ghost use Rattle.series.specs.SuffixLaws.{Kept};

use first_runs::search::{FAR, best_first};
use terms::limits::TRACE_LIMIT;
use terms::{Rate, Tariff};

// An entry for each period of the longest trace, and one for after its last.
pub const ENTRIES: usize = TRACE_LIMIT + 1;

// Fills the three lists from the last period to the first. After the last period nothing is left. The
// search from a start begins with the rate that the best cutting one period later begins with.
pub fn cut_suffixes(
    trace: &[u16],
    tariff: Tariff,
    costs: &mut [u64],
    counts: &mut [u32],
    firsts: &mut [u32],
)
    requires trace_len_bound { length trace.now ≤ trace_limit }
    requires tariff_range { TariffRange tariff }
    requires kept { Kept tariff trace.now (length trace.now) costs.old counts.old firsts.old }
    ensures { Kept tariff trace.now 0 costs.new counts.new firsts.new }
{
    let end = trace.len() + 1;
    let far = [FAR; TRACE_LIMIT];
    let mut begin = Rate(0);
    for start in (0..trace.len()).rev() {
        let next = start + 1;
        let best = best_first(
            &trace[start..],
            tariff,
            begin,
            &far,
            &costs[next..end],
            &counts[next..end],
        );
        costs[start] = best.outline.cost;
        counts[start] = best.outline.buckets;
        firsts[start] = best.outline.first;
        begin = best.rate;
    }
}

// The series planned: the plan's figures and its records. Public only for the crates above.
ghost use Rattle.std.specs.Prelude.{◌≡◌, length};
ghost use Rattle.terms.specs.Answer.{on_figures};
ghost use Rattle.terms.specs.RangeRules.{PeriodsRange, TariffRange};
ghost use Rattle.terms.specs.Refusals.{says};
ghost use Rattle.series.specs.Series.{cheapest_cut, found_of, series_of};

use crate::answers::{Plan, SeriesRecords};
use crate::records::record_runs;
use crate::suffixes::{ENTRIES, cut_suffixes};
use first_runs::outlines::UNPRICED;
use terms::{Refusal, Tariff, periods_in_range, tariff_in_range};

// The series call for a list of `room` records.
pub fn plan_series(trace: &[u16], tariff: Tariff, room: usize) -> Result<SeriesRecords, Refusal>
    ensures { says result ≡ on_figures (found_of tariff) (series_of tariff room trace.now) }
{
    let periods = trace.len();
    if !periods_in_range(periods) {
        return Err(Refusal::Periods);
    }
    if !tariff_in_range(tariff) {
        return Err(Refusal::Figure);
    }
    if room < periods {
        return Err(Refusal::List);
    }
    cheapest(trace, tariff)
}

// The cheapest cutting, or refusal 7.
fn cheapest(trace: &[u16], tariff: Tariff) -> Result<SeriesRecords, Refusal>
    requires periods_range { PeriodsRange (length trace.now) }
    requires tariff_range { TariffRange tariff }
    ensures { says result ≡ on_figures (found_of tariff) (cheapest_cut tariff trace.now) }
{
    let mut costs = [0u64; ENTRIES];
    let mut counts = [0u32; ENTRIES];
    let mut firsts = [0u32; ENTRIES];
    cut_suffixes(trace, tariff, &mut costs, &mut counts, &mut firsts);
    let buckets = counts[0];
    let cost = costs[0];
    if cost == UNPRICED {
        return Err(Refusal::NoPlan);
    }
    let records = record_runs(trace, tariff, &firsts);
    let plan = Plan { buckets, cost };
    Ok(SeriesRecords { plan, records })
}

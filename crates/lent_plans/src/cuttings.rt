// The series of buckets: the call that planners use.
ghost use Rattle.std.specs.Prelude.{◌≡◌, length};
ghost use Rattle.terms.specs.Lent.{filled};
ghost use Rattle.terms.specs.Refusals.{says};
ghost use Rattle.series.specs.Series.{plan_of, series_of};

use record_list::copies::store_records;
use series::Plan;
use series::planner::plan_series;
use terms::{BucketRecord, Refusal, Tariff};

// Cuts the trace into runs with a bucket each, at the least cost; equal costs go to fewer buckets
// and then to the longer first run, the longer second and so on. The buckets' records fill the
// front of the lent list in order. Or refusal 3, 5, 6 (a list with fewer entries than the trace) or
// 7 (no cutting), and the list is as it was.
pub fn series(trace: &[u16], tariff: Tariff, list: &mut [BucketRecord]) -> Result<Plan, Refusal>
    ensures { (says result ≡ plan_of tariff (series_of tariff (length list.old) trace.now))
        × (list.new ≡ filled (series_of tariff (length list.old) trace.now) list.old) }
{
    let found = plan_series(trace, tariff, list.len())?;
    store_records(list, found.records.as_slice());
    Ok(found.plan)
}

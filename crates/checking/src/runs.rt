// A plan's runs weighed one after the other. Public only for this crate's calls, which show what is
// required.
ghost use Rattle.std.specs.Prelude.{◌≡◌, length};
ghost use Rattle.terms.specs.RangeRules.{FreshRange, PeriodsRange};
ghost use Rattle.checking.specs.Check.{plan_ok, run_ok};
ghost use Rattle.checking.specs.WeighLaws.{Weighable};

use bucket::trial;
use plan_file::Recorded;
use single::costs::cost_of;
use terms::{Bucket, Tariff};

// Whether a bucket is inside the caps and, fresh with the tariff's factor, carries a run.
fn run_holds(tariff: Tariff, bucket: Bucket, run: &[u16]) -> bool
    requires fresh_range { FreshRange bucket tariff.factor }
    requires periods_range { PeriodsRange (length run.now) }
    ensures { result ≡ run_ok tariff run.now bucket }
{
    let carried = trial(bucket, tariff.factor, run).is_ok_and(|figures| figures.over == 0);
    (bucket.rate.0 <= tariff.rate_cap.0) & (bucket.depth.0 <= tariff.depth_cap.0) & carried
}

// Whether each bucket of a plan holds on its run, the runs one after the other, and the stated cost is
// the sum of theirs.
pub fn plan_holds(trace: &[u16], tariff: Tariff, stated: &Recorded) -> bool
    requires { Weighable tariff trace.now stated.now }
    ensures { result ≡ plan_ok tariff trace.now stated.now }
{
    let records = stated.buckets.as_slice();
    let mut cost: u64 = 0;
    let mut rest = trace;
    for &x in records {
        let (run, later) = rest.split_at(x.periods as usize);
        if !run_holds(tariff, x.bucket, run) {
            return false;
        }
        cost += cost_of(tariff, x.periods as u64, x.bucket);
        rest = later;
    }
    stated.cost == cost
}

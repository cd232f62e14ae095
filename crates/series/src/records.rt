// The records of the runs. Public only for this crate's calls, which show what is
// required.
ghost use Rattle.std.specs.Prelude.{◌≡◌, length};
ghost use Rattle.terms.specs.Answer.{figures};
ghost use Rattle.terms.specs.RangeRules.{PeriodsRange, TariffRange};
ghost use Rattle.series.specs.RecordLaws.{Firsts, HasBucket};
ghost use Rattle.series.specs.Series.{cheapest_cut, run_record};

use record_list::records::Records;
use single::single;
use terms::{Bucket, BucketRecord, Depth, Rate, Tariff};

// Each run's length and the single bucket of its own part of the trace, first run to last.
pub fn record_runs(trace: &[u16], tariff: Tariff, firsts: &[u32]) -> Records
    requires periods_range { PeriodsRange (length trace.now) }
    requires tariff_range { TariffRange tariff }
    requires firsts { Firsts tariff trace.now firsts.now }
    ensures { figures result ≡ cheapest_cut tariff trace.now }
{
    let mut records = Records::new();
    let mut start = 0;
    // where the next run starts is known only once this one is, so no range or slice gives the turns
    while start < trace.len() {
        let periods = firsts[start];
        let end = start + periods as usize;
        let bucket = bucket_of(&trace[start..end], tariff);
        records.push(BucketRecord { periods, bucket });
        start = end;
    }
    records
}

// The single bucket of a run. The run has one, so the second arm is never taken.
fn bucket_of(run: &[u16], tariff: Tariff) -> Bucket
    requires periods_range { PeriodsRange (length run.now) }
    requires tariff_range { TariffRange tariff }
    requires has_bucket { HasBucket tariff run.now }
    ensures { run_record tariff run.now ≡ figures (record { periods = length run.now; bucket = result }) }
{
    match single(run, tariff) {
        Ok(x) => x.bucket,
        Err(_) => Bucket {
            rate: Rate(0),
            depth: Depth(0),
        },
    }
}

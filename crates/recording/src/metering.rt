// The meters of a recorded plan, run by run. Public only for this crate's calls, which show what is
// required.
ghost use Rattle.std.specs.Prelude.{◌≡◌, length};
ghost use Rattle.terms.specs.Answer.{on_figures};
ghost use Rattle.terms.specs.Limits.{trace_limit};
ghost use Rattle.terms.specs.Records.{run_length, total};
ghost use Rattle.terms.specs.Refusals.{says};
ghost use Rattle.meter.specs.MeterLaws.{Sound};
ghost use Rattle.plan_file.specs.PlanRules.{CountsRange};
ghost use Rattle.recording.specs.Recording.{meters_of, totals_of};
ghost use Rattle.recording.specs.MeteringLaws.{added, Few};

use meter::{Meter, meter_run};
use terms::{BucketRecord, Factor, Refusal};

// What the meters of the runs ended with, summed over the runs. The tokens held at the end of a run
// lapse.
#[derive(Clone, Copy)]
pub struct MeterTotals {
    pub sent: u64,
    pub over: u64,
    pub lost: u64,
    pub held: u64,
}

impl MeterTotals {
    // The totals with one meter more.
    fn with(self, m: Meter) -> Self
        requires few { Few trace_limit self }
        requires sound { Sound m }
        ensures { result ≡ added self m }
    {
        MeterTotals {
            sent: self.sent + m.sent,
            over: self.over + m.over,
            lost: self.lost + m.lost,
            held: self.held + m.held as u64,
        }
    }
}

// Opens a meter on each recorded bucket with the factor and offers it its run of the trace, first
// period to last.
pub fn meter_runs(
    trace: &[u16],
    factor: Factor,
    records: &[BucketRecord],
) -> Result<MeterTotals, Refusal>
    requires counts_range { CountsRange (length trace.now) (length records.now) }
    requires runs_sum { total run_length records.now ≡ length trace.now }
    ensures { says result ≡ on_figures totals_of (meters_of factor trace.now records.now) }
{
    let mut totals = MeterTotals {
        sent: 0,
        over: 0,
        lost: 0,
        held: 0,
    };
    let mut rest = trace;
    for &x in records {
        let (run, later) = rest.split_at(x.periods as usize);
        let meter = meter_run(x.bucket, factor, run)?;
        totals = totals.with(meter);
        rest = later;
    }
    Ok(totals)
}

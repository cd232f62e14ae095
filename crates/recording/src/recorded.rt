// A plan that was found, recorded: written, read back and metered. Public only for the crate above,
// which shows what is required.
ghost use Rattle.std.specs.Prelude.{◌≡◌, length};
ghost use Rattle.terms.specs.Refusals.{says};
ghost use Rattle.plan_file.specs.Plan.{write_plan};
ghost use Rattle.recording.specs.RecordingLaws.{RecordsPlan};

use crate::metering::{MeterTotals, meter_runs};
use plan_file::reading::read_records;
use plan_file::{PlanFigures, write_plan};
use record_list::records::Records;
use terms::{BucketRecord, Factor, Refusal, factor_in_range};

// A plan that is recorded: its figures as read back, the length of its file, and what the meters of
// its runs ended with.
#[derive(Clone, Copy)]
pub struct Booking {
    pub plan: PlanFigures,
    pub length: usize,
    pub meters: MeterTotals,
}

// What recording a plan gives: the booking, and the records read back.
#[derive(Clone, Copy)]
pub struct BookingRecords {
    pub booking: Booking,
    pub records: Records,
}

// Writes the plan with its records, reads the front of those bytes back for a list of `space` records,
// and meters each run of the trace. All that could be refused after writing is weighed before it: after a
// refusal everything lent is as it was.
pub fn record_plan(
    plan: PlanFigures,
    records: &[BucketRecord],
    factor: Factor,
    trace: &[u16],
    bytes: &mut [u8],
    space: usize,
) -> Result<BookingRecords, Refusal>
    requires { plan.periods ≡ length trace.now }
    ensures { RecordsPlan plan (write_plan (length bytes.old) plan records.now)
        factor trace.now bytes.old space bytes.new (says result) }
{
    if !factor_in_range(factor) {
        return Err(Refusal::Figure);
    }
    if space < plan.buckets as usize {
        return Err(Refusal::List);
    }
    let length = write_plan(plan, records, bytes)?;
    let back = read_records(&bytes[..length], space)?;
    let meters = meter_runs(trace, factor, back.buckets.as_slice())?;
    let booking = Booking {
        plan: back.figures(),
        length,
        meters,
    };
    Ok(BookingRecords {
        booking,
        records: back.buckets,
    })
}

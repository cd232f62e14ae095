// The plan file read. Public only for the crates above.
ghost use Rattle.std.specs.Prelude.{◌≡◌};
ghost use Rattle.terms.specs.Refusals.{says};
ghost use Rattle.plan_file.specs.Plan.{plan_in, read_plan, VeryPlan};

use crate::answers::Recorded;
use crate::layout::{BUCKETS_OFFSET, COST_OFFSET, PLAN_KIND, RECORD_BYTES, counts_in_range};
use crate::records::{load_records, records_in_range};
use encoding::headers::placed;
use encoding::numbers::{number_at, word_at};
use terms::Refusal;
use terms::limits::COST_LIMIT;

// Plan reading for a list of `room` records.
pub fn read_records(bytes: &[u8], room: usize) -> Result<Recorded, Refusal>
    ensures result_value { says result ≡ read_plan room bytes.now }
    ensures very_plan { VeryPlan bytes.now (read_plan room bytes.now) }
{
    let plan = plan_in(bytes)?;
    if room < plan.buckets.as_slice().len() {
        return Err(Refusal::List);
    }
    Ok(plan)
}

// Weighs all that a plan file holds; or refusal 1 to 5.
#[tactic(auto, unfolding(crate::specs::Plan::plan_in))]
fn plan_in(bytes: &[u8]) -> Result<Recorded, Refusal>
    ensures { says result ≡ plan_in bytes.now }
{
    if bytes.len() < COST_OFFSET {
        return Err(Refusal::Short);
    }
    if word_at(bytes, 0) != PLAN_KIND {
        return Err(Refusal::Foreign);
    }
    let periods = word_at(bytes, 4);
    let count = word_at(bytes, 8);
    if !counts_in_range(periods, count) {
        return Err(Refusal::Periods);
    }
    let length = BUCKETS_OFFSET + RECORD_BYTES * count as usize;
    if !placed(bytes, 12, COST_OFFSET, BUCKETS_OFFSET, length) {
        return Err(Refusal::Misplaced);
    }
    let cost = number_at(bytes, COST_OFFSET, 8);
    if COST_LIMIT < cost {
        return Err(Refusal::Figure);
    }
    let buckets = load_records(bytes, count as usize);
    if !records_in_range(periods, buckets.as_slice()) {
        return Err(Refusal::Figure);
    }
    Ok(Recorded {
        periods,
        cost,
        buckets,
    })
}

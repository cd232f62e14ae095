// The plan file written from a list of records.
ghost use Rattle.std.specs.Prelude.{◌≤◌, ◌≡◌, ◌++◌, length, take};
ghost use Rattle.std.proofs.lemmas.List.Edits.{sets};
ghost use Rattle.terms.specs.Answer.{on_figures};
ghost use Rattle.terms.specs.Lent.{filled};
ghost use Rattle.terms.specs.Limits.{trace_limit};
ghost use Rattle.terms.specs.Refusals.{says};
ghost use Rattle.encoding.specs.Number.{bytes_of, bytes_of_all};
ghost use Rattle.plan_file.specs.Plan.{plan_words, write_plan};

use crate::answers::PlanFigures;
use crate::layout::{BUCKETS_OFFSET, COST_OFFSET, PLAN_KIND, RECORD_BYTES, counts_in_range};
use crate::records::{put_records, records_in_range};
use encoding::numbers::{put_number, put_words};
use terms::limits::COST_LIMIT;
use terms::{BucketRecord, Refusal};

// Writes a plan into the front of the bytes, its records from the front of the list, and answers its
// length; or refusal 3, 5 or 6 (a list with fewer entries than buckets, whose records are then not
// weighed, or bytes fewer than the file), and the bytes are as they were.
#[tactic(auto, unfolding(crate::specs::Plan::plan_file))]
pub fn write_plan(
    plan: PlanFigures,
    list: &[BucketRecord],
    bytes: &mut [u8],
) -> Result<usize, Refusal>
    ensures result_value { says result ≡ on_figures length (write_plan (length bytes.old) plan list.now) }
    ensures bytes_after { bytes.new ≡ filled (write_plan (length bytes.old) plan list.now) bytes.old }
{
    if !counts_in_range(plan.periods, plan.buckets) {
        return Err(Refusal::Periods);
    }
    if COST_LIMIT < plan.cost {
        return Err(Refusal::Figure);
    }
    let buckets = plan.buckets as usize;
    if list.len() < buckets {
        return Err(Refusal::List);
    }
    let records = &list[..buckets];
    if !records_in_range(plan.periods, records) {
        return Err(Refusal::Figure);
    }
    let length = BUCKETS_OFFSET + RECORD_BYTES * buckets;
    if bytes.len() < length {
        return Err(Refusal::List);
    }
    put_header(bytes, plan);
    put_records(bytes, BUCKETS_OFFSET, records);
    Ok(length)
}

// Stores what comes before the records.
fn put_header(bytes: &mut [u8], plan: PlanFigures)
    requires in_bounds { 32 ≤ length bytes.old }
    requires buckets_le_trace_limit { plan.buckets ≤ trace_limit }
    ensures { bytes.new ≡ sets bytes.old 0 (bytes_of_all (bytes_of 4) (plan_words plan.periods plan.buckets) ++ bytes_of 8 plan.cost) }
{
    let words = [
        PLAN_KIND,
        plan.periods,
        plan.buckets,
        COST_OFFSET as u32,
        BUCKETS_OFFSET as u32,
        BUCKETS_OFFSET as u32 + RECORD_BYTES as u32 * plan.buckets,
    ];
    put_words(bytes, 0, &words);
    put_number(bytes, COST_OFFSET, 8, plan.cost);
}

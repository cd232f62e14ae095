// Plans of two buckets written, from a list and into bytes of several lengths. Records after the two
// break every rule: no plan that is written holds them.
use crate::entries;
use cases::{field, figure, large};
use list_calls::write_on;
use plan_file::PlanFigures;
use samples::file_bytes::{LENT, LENT_BYTES, lent_front};
use samples::lent_records::{ENTRIES, record_of};
use terms::BucketRecord;

pub fn write_case(rt: &impl Print, line: &[u8]) {
    edge(
        rt,
        plan(field(line, 1)),
        bucket(field(line, 2)),
        bucket(field(line, 3)),
        entries(field(line, 4)),
        entries(field(line, 5)),
    );
}

fn plan(field: &[u8]) -> PlanFigures {
    PlanFigures {
        periods: figure(field, 0),
        buckets: figure(field, 1),
        cost: large(field, 2),
    }
}

fn bucket(field: &[u8]) -> BucketRecord {
    record_of(figure(field, 0), figure(field, 1), figure(field, 2))
}

// One edge: a plan of these figures and records, from a list of so many entries into so many bytes.
fn edge(
    rt: &impl Print,
    plan: PlanFigures,
    first: BucketRecord,
    last: BucketRecord,
    entries: usize,
    length: usize,
) {
    let mut list = [record_of(0, 9999, 2_000_000); ENTRIES];
    list[0] = first;
    list[1] = last;
    let mut bytes = [LENT; LENT_BYTES];
    let answer = write_on(plan, list, entries, lent_front(&mut bytes, length));
    print_plan(rt, plan, first, last);
    report::figure(rt, b"list of", entries as u64);
    report::figure(rt, b", into", length as u64);
    report::words(rt, b":");
    report::written(rt, answer, &bytes);
}

fn print_plan(rt: &impl Print, plan: PlanFigures, first: BucketRecord, last: BucketRecord) {
    report::figure(rt, b"T", plan.periods as u64);
    report::figure(rt, b", k", plan.buckets as u64);
    report::figure(rt, b", cost", plan.cost);
    report::words(rt, b",");
    report::record(rt, first);
    report::words(rt, b",");
    report::record(rt, last);
    report::words(rt, b", ");
}

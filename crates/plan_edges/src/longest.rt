// A plan of 512 periods and 512 buckets, written, read, and written again from what was read.
use crate::readings::read_into;
use list_calls::{read_on, write_on};
use plan_file::{LONGEST_PLAN, PlanFigures};
use samples::file_bytes::{LENT, LENT_BYTES, front, lent_front};
use samples::lent_records::{ENTRIES, counted, filled};
use terms::BucketRecord;

pub fn edges(rt: &impl Print) {
    written(rt, LONGEST_PLAN - 1);
    written(rt, LONGEST_PLAN + 1);
    let bytes = written(rt, LONGEST_PLAN);
    read_into(rt, front(&bytes, LONGEST_PLAN - 1), 512);
    read_into(rt, front(&bytes, LONGEST_PLAN), 511);
    read_into(rt, front(&bytes, LONGEST_PLAN), 512);
    read_into(rt, front(&bytes, LONGEST_PLAN + 1), 512);
    again(rt, bytes);
}

// Runs of one period, rates from 3,500 on and depths from 700 on.
fn buckets() -> [BucketRecord; ENTRIES] {
    counted(1, true, 3500, 700)
}

// The plan written into so many bytes.
fn written(rt: &impl Print, length: usize) -> [u8; LENT_BYTES] {
    let plan = PlanFigures {
        periods: 512,
        buckets: 512,
        cost: 100_000_000_000_000,
    };
    let mut bytes = [LENT; LENT_BYTES];
    let answer = write_on(plan, buckets(), ENTRIES, lent_front(&mut bytes, length));
    report::figure(rt, b"512 buckets into", length as u64);
    report::words(rt, b":");
    report::written(rt, answer, &bytes);
    bytes
}

// The file read, and what was read written again.
fn again(rt: &impl Print, bytes: [u8; LENT_BYTES]) {
    let lent = read_on(front(&bytes, LONGEST_PLAN), filled(), ENTRIES);
    let answer = lent.answer;
    let list = lent.list;
    report::words(rt, b"read and written again:");
    match answer {
        Ok(plan) => written_again(rt, plan, list),
        Err(x) => report::refusal(rt, x),
    }
}

fn written_again(rt: &impl Print, plan: PlanFigures, list: [BucketRecord; ENTRIES]) {
    let mut bytes = [LENT; LENT_BYTES];
    let answer = write_on(plan, list, ENTRIES, &mut bytes);
    report::written(rt, answer, &bytes);
}

// What a booking recorded: its file read again, and the meter of each run.
ghost use Rattle.std.specs.Prelude.{◌≤◌};

use list_calls::read_on;
use meter::{Meter, meter_run};
use order_file::read_order;
use samples::demands::part_of;
use samples::file_bytes::{LENT_BYTES, front};
use samples::lent_records::{ENTRIES, are_same, at_most, filled};
use terms::{Bucket, BucketRecord, Refusal};

// What reading the front of the bytes gives, and whether its records are those in the list.
pub fn read_again(
    rt: &impl Print,
    bytes: &[u8; LENT_BYTES],
    length: usize,
    list: [BucketRecord; ENTRIES],
) {
    let lent = read_on(front(bytes, length), filled(), ENTRIES);
    let answer = lent.answer;
    let read = lent.list;
    report::words(rt, b", file read again:");
    report::plan(rt, answer);
    if are_same(list, read, 0) {
        report::words(rt, b", same records\n");
    } else {
        report::words(rt, b", other records\n");
    }
}

// A line for each run until the order's last period: its first and last period, its bucket, and what
// its meter ended with.
pub fn print_runs(
    rt: &impl Print,
    order: &[u8],
    demands: &[u16; ENTRIES],
    list: [BucketRecord; ENTRIES],
) {
    let Ok(x) = read_order(order) else {
        return;
    };
    let factor = x.tariff.factor;
    let mut start = 0;
    for &record in &list {
        if x.periods as usize <= start {
            return;
        }
        let end = end_of(start, record.periods);
        let bucket = record.bucket;
        report::figure(rt, b"periods", start as u64 + 1);
        report::figure(rt, b" to", end as u64);
        print_meter(
            rt,
            bucket,
            meter_run(bucket, factor, part_of(demands, start, end)),
        );
        start = end;
    }
}

// The last period of a run, of which `start` periods come before.
fn end_of(start: usize, run: u32) -> usize
    requires { start ≤ 516 }
    ensures { result ≤ 516 }
{
    at_most(start + at_most(run as usize, ENTRIES), ENTRIES)
}

fn print_meter(rt: &impl Print, bucket: Bucket, answer: Result<Meter, Refusal>) {
    report::figure(rt, b": rate", bucket.rate.0 as u64);
    report::figure(rt, b" depth", bucket.depth.0 as u64);
    match answer {
        Ok(m) => report::totals(rt, m.sent, m.over, m.lost, m.held as u64),
        Err(x) => report::refusal(rt, x),
    }
    report::end_line(rt);
}

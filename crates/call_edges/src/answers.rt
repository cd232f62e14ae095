// One case in a line: its name and the answer.
use crate::meters::print_meter;
use cases::{DEMANDS, bucket_of, factor_of, field, figure, first, tariff_of, trace};
use list_calls::series_on;
use meter::{meter_run, open_meter};
use samples::lent_records::filled;
use terms::{Rate, Tariff, tariff_in_range};

pub fn named(rt: &impl Print, line: &[u8]) {
    let mut room = [0u16; DEMANDS];
    let trace = trace(field(line, 3), &mut room);
    report::words(rt, field(line, 1));
    report::words(rt, b":");
    let last = figure(field(line, 4), 0);
    answer(rt, first(line), field(line, 2), trace, last);
}

// The kind of case is told by its first letter; the last figure is a rate or a number of entries.
fn answer(rt: &impl Print, kind: u8, figures: &[u8], trace: &[u16], last: u32) {
    match kind {
        b'f' => range(rt, tariff_of(figures)),
        b't' => report::trial(
            rt,
            bucket::trial(bucket_of(figures), factor_of(figures), trace),
        ),
        b'o' => print_meter(rt, open_meter(bucket_of(figures), factor_of(figures))),
        b'r' => print_meter(rt, meter_run(bucket_of(figures), factor_of(figures), trace)),
        b'd' => report::depth(rt, depth::depth_at(trace, Rate(last), tariff_of(figures))),
        b'e' => report::depth(
            rt,
            depth::depth_from_end(trace, Rate(last), tariff_of(figures)),
        ),
        b'c' => report::explained(rt, causes::explain(trace, Rate(last), tariff_of(figures))),
        b'b' => report::single(rt, single::single(trace, tariff_of(figures))),
        b's' => series(rt, trace, tariff_of(figures), last as usize),
        _ => report::words(rt, b" no such case\n"),
    }
}

fn range(rt: &impl Print, tariff: Tariff) {
    if tariff_in_range(tariff) {
        report::words(rt, b" in range\n");
    } else {
        report::words(rt, b" out of range\n");
    }
}

// The plan with its buckets, or the refusal, and whether the rest of the lent list is kept.
fn series(rt: &impl Print, trace: &[u16], tariff: Tariff, entries: usize) {
    let lent = series_on(trace, tariff, filled(), entries);
    let answer = lent.answer;
    let list = lent.list;
    report::series(rt, answer);
    // none on a refusal
    let buckets = answer.map_or(0, |plan| plan.buckets as usize);
    report::list(rt, list, buckets);
}

// Prints the lettered figures of document 01, and job 2's of document 02, as the calls give them that are
// offered. The rows of depth, single bucket, series and trial stand in the file stdin, which says its form.
#![tactic(auto)]

use cases::{DEMANDS, bucket_of, each_line, factor_of, field, figure, first, tariff_of, trace};
use console::{INPUT_ROOM, Program};
use list_calls::series_on;
use metqoraz::{BucketRecord, LONGEST_FIGURE, Rate, Tariff};
use samples::file_bytes::front;
use samples::lent_records::{ENTRIES, record_of};

fn main(rt: HostRuntime) {
    let mut input = [0u8; INPUT_ROOM];
    let program = Program {
        name: "figures",
        errors: &rt.stderr(),
    };
    let length = program.read(&rt, &mut input);
    each_line(&input[..length], |line| case(&rt, line));
    row_j(&rt);
    row_l(&rt);
}

// A row: its name, and the answer.
fn case(rt: &impl Print, line: &[u8]) {
    let kind = first(line);
    if kind == b'#' {
        return;
    }
    let mut room = [0u16; DEMANDS];
    let trace = trace(field(line, 3), &mut room);
    report::words(rt, field(line, 1));
    let rate = Rate(figure(field(line, 4), 0));
    answer(rt, kind, field(line, 2), trace, rate);
}

fn answer(rt: &impl Print, kind: u8, figures: &[u8], trace: &[u16], rate: Rate) {
    match kind {
        b'd' => report::depth(rt, metqoraz::depth_at(trace, rate, tariff_of(figures))),
        b'e' => report::depth(
            rt,
            metqoraz::depth_from_end(trace, rate, tariff_of(figures)),
        ),
        b'c' => report::explained(rt, metqoraz::explain(trace, rate, tariff_of(figures))),
        b'b' => report::single(rt, metqoraz::single(trace, tariff_of(figures))),
        b't' => report::trial(
            rt,
            metqoraz::trial(bucket_of(figures), factor_of(figures), trace),
        ),
        b's' => print_series(rt, trace, tariff_of(figures)),
        _ => report::words(rt, b": no such case\n"),
    }
}

// The series of at most three periods, and each of its buckets.
fn print_series(rt: &impl Print, trace: &[u16], tariff: Tariff) {
    let lent = series_on(trace, tariff, [record_of(0, 0, 0); ENTRIES], 3);
    let answer = lent.answer;
    let list = lent.list;
    report::series(rt, answer);
    print_bucket(rt, list[0]);
    print_bucket(rt, list[1]);
    print_bucket(rt, list[2]);
    report::end_line(rt);
}

// A bucket, where its run has any period.
fn print_bucket(rt: &impl Print, x: BucketRecord) {
    if 0 < x.periods {
        report::record(rt, x);
    }
}

// A meter of rate 5 and depth 4, offered 4, 8, 2 and 9: sent, over, lost, tokens held.
fn row_j(rt: &impl Print) {
    report::words(rt, b"J");
    let bucket = b"5 4 1 2";
    let a = metqoraz::open_meter(bucket_of(bucket), factor_of(bucket));
    match a {
        Ok(m) => {
            let m = metqoraz::offer(m, 4).meter;
            let m = metqoraz::offer(m, 8).meter;
            let m = metqoraz::offer(m, 2).meter;
            let m = metqoraz::offer(m, 9).meter;
            report::totals(rt, m.sent, m.over, m.lost, m.held as u64);
        }
        Err(x) => report::refusal(rt, x),
    }
    report::end_line(rt);
}

// Minus one half, one half, nothing, and minus one and a half megabits.
fn row_l(rt: &impl Print) {
    report::words(rt, b"L");
    megabits(rt, -500);
    megabits(rt, 500);
    megabits(rt, 0);
    megabits(rt, -1500);
    report::end_line(rt);
}

// A space and a figure in megabits.
fn megabits(rt: &impl Print, z: i64) {
    let mut text = [0u8; LONGEST_FIGURE];
    let answer = metqoraz::megabits(z, &mut text);
    report::words(rt, b" ");
    report::words(rt, front(&text, report::filled_of(answer)));
}

// Orders written, read and spread.
use crate::demands::{is_front, print_length, print_list};
use crate::entries;
use crate::readings::reading;
use cases::{DEMANDS, field, tariff_of, trace};
use order_file::{spread, trace_part, write_order};
use samples::demands::LENT_DEMAND;
use samples::file_bytes::{LENT, LENT_BYTES, front, lent_front};
use samples::lent_records::ENTRIES;
use samples::tariffs::printed_case;
use terms::Tariff;

// An order written into so many bytes.
pub fn write_case(rt: &impl Print, line: &[u8]) {
    let mut room = [0u16; DEMANDS];
    let trace = trace(field(line, 2), &mut room);
    write(
        rt,
        tariff_of(field(line, 1)),
        trace,
        entries(field(line, 3)),
    );
}

fn write(rt: &impl Print, tariff: Tariff, trace: &[u16], lent: usize) {
    let mut bytes = [LENT; LENT_BYTES];
    let answer = write_order(tariff, trace, lent_front(&mut bytes, lent));
    print_length(rt, trace);
    report::words(rt, b" at");
    report::tariff(rt, tariff);
    report::figure(rt, b" into", lent as u64);
    report::words(rt, b":");
    report::written(rt, answer, &bytes);
}

// An order in three lines: written, its file read, and its trace's part spread.
pub fn file_case(rt: &impl Print, line: &[u8]) {
    let mut room = [0u16; DEMANDS];
    let trace = trace(field(line, 1), &mut room);
    file(rt, trace, entries(field(line, 2)));
}

fn file(rt: &impl Print, trace: &[u16], length: usize) {
    let bytes = written(rt, trace);
    cut(rt, bytes, length);
    spread_back(rt, bytes, length, trace);
}

pub fn written(rt: &impl Print, trace: &[u16]) -> [u8; LENT_BYTES] {
    let mut bytes = [LENT; LENT_BYTES];
    let answer = write_order(printed_case(), trace, &mut bytes);
    print_length(rt, trace);
    report::words(rt, b" written:");
    report::written(rt, answer, &bytes);
    bytes
}

pub fn cut(rt: &impl Print, bytes: [u8; LENT_BYTES], length: usize) {
    reading(rt, front(&bytes, length));
}

fn spread_back(rt: &impl Print, bytes: [u8; LENT_BYTES], length: usize, trace: &[u16]) {
    let mut list = [LENT_DEMAND; ENTRIES];
    let answer = spread(trace_part(front(&bytes, length)), &mut list);
    if is_front(trace, &list) {
        report::words(rt, b"spread as written:");
    } else {
        report::words(rt, b"spread otherwise:");
    }
    print_list(rt, answer, &list);
}

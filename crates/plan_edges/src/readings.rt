// A plan read, in a line.
use crate::entries;
use cases::{field, file_of};
use list_calls::read_on;
use samples::file_bytes::front;
use samples::lent_records::filled;

// A case: its name, and the first bytes of the file read.
pub fn read_case(rt: &impl Print, line: &[u8]) {
    let file = file_of(field(line, 3));
    report::words(rt, field(line, 1));
    read_into(
        rt,
        front(&file, entries(field(line, 2))),
        entries(field(line, 4)),
    );
}

// Into a list of so many entries: the figures and the buckets, or the refusal, and
// whether every other record of the list is as it was.
pub fn read_into(rt: &impl Print, file: &[u8], entries: usize) {
    let lent = read_on(file, filled(), entries);
    let answer = lent.answer;
    let list = lent.list;
    report::figure(rt, b"bytes", file.len() as u64);
    report::words(rt, b" read:");
    report::plan(rt, answer);
    // no record is filled on a refusal
    report::list(rt, list, answer.map_or(0, |plan| plan.buckets as usize));
}

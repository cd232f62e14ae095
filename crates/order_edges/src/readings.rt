// An order read, in a line.
use crate::entries;
use cases::{field, file_of};
use order_file::{read_order, trace_part};
use samples::file_bytes::front;

// A case: its name, and the first bytes of the file read.
pub fn read_case(rt: &impl Print, line: &[u8]) {
    let file = file_of(field(line, 3));
    report::words(rt, field(line, 1));
    reading(rt, front(&file, entries(field(line, 2))));
}

// The figures or the refusal, and the length of its trace's part.
pub fn reading(rt: &impl Print, file: &[u8]) {
    report::figure(rt, b"bytes", file.len() as u64);
    report::words(rt, b" read:");
    report::order(rt, read_order(file));
    let part = trace_part(file);
    report::words(rt, b", trace part");
    report::number(rt, part.len() as u64);
    report::end_line(rt);
}

// Demands printed: of a trace, and of the list that spreading has filled.
use samples::demands::are_lent;
use samples::file_bytes::summed;
use samples::lent_records::ENTRIES;
use terms::Refusal;

// How many demands there are, and the first.
pub fn print_length(rt: &impl Print, trace: &[u16]) {
    report::words(rt, b"trace of");
    report::number(rt, trace.len() as u64);
    if let Some(&first) = trace.first() {
        report::words(rt, b" from");
        print_demand(rt, first);
    }
}

pub fn print_demand(rt: &impl Print, d: u16) {
    report::number(rt, d as u64);
}

// How many demands were filled and their checksum, or the refusal; then whether every entry after
// those filled is as it was lent.
pub fn print_list(rt: &impl Print, answer: Result<usize, Refusal>, list: &[u16; ENTRIES]) {
    let count = report::filled_of(answer);
    report::fill(rt, answer);
    if 0 < count {
        report::words(rt, b" checksum");
        report::number(rt, checksum(list, count) as u64);
    }
    report::kept(rt, are_lent(list, count));
}

// A number that each of the first demands and its place enter.
fn checksum(list: &[u16; ENTRIES], count: usize) -> u32 {
    list.iter()
        .take(count)
        .fold(0, |sum, &demand| summed(sum, demand))
}

// Whether the trace stands at the front of the list.
pub fn is_front(trace: &[u16], list: &[u16; ENTRIES]) -> bool {
    list.starts_with(trace)
}

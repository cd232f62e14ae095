// One check: an order and a plan, what is said of them, and the line of it in a text with so much room.
use crate::joined::{JOINED_BYTES, joined};
use cases::{DEMANDS, field, figure, file_of, tariff_of, trace};
use checking::{Verdict, check, check_files, check_line};
use list_calls::book_on;
use order_file::write_order;
use samples::demands::LENT_DEMAND;
use samples::file_bytes::{LENT, LENT_BYTES, front, is_lent, lent_front};
use samples::lent_records::{ENTRIES, filled};
use terms::Refusal;

// A case: the first bytes of an order of some words, and of a plan.
pub fn check_case(rt: &impl Print, line: &[u8]) {
    let order = file_of(field(line, 4));
    with_plan(rt, line, front(&order, figure(field(line, 3), 0) as usize));
}

// A case: an order of some tariff and trace, and the first bytes of a plan of some words.
pub fn plan_case(rt: &impl Print, line: &[u8]) {
    let mut order = [LENT; LENT_BYTES];
    with_plan(rt, line, put_order(line, &mut order));
}

// Stores the order of a case's tariff and trace, and gives the part that it fills.
fn put_order<'a>(line: &[u8], file: &'a mut [u8; LENT_BYTES]) -> &'a [u8] {
    let mut room = [0u16; DEMANDS];
    let trace = trace(field(line, 4), &mut room);
    let answer = write_order(tariff_of(field(line, 3)), trace, file);
    front(file, report::filled_of(answer))
}

fn with_plan(rt: &impl Print, line: &[u8], order: &[u8]) {
    let plan = file_of(field(line, 6));
    named(
        rt,
        line,
        order,
        front(&plan, figure(field(line, 5), 0) as usize),
    );
}

// A case: an order of some tariff and trace, and the plan that booking it records.
pub fn booked_case(rt: &impl Print, line: &[u8]) {
    let mut order = [LENT; LENT_BYTES];
    with_own(rt, line, put_order(line, &mut order));
}

fn with_own(rt: &impl Print, line: &[u8], order: &[u8]) {
    let mut demands = [LENT_DEMAND; ENTRIES];
    let mut plan = [LENT; LENT_BYTES];
    let answer = book_on(
        order,
        &mut demands,
        filled(),
        ENTRIES,
        &mut plan,
        filled(),
        ENTRIES,
    )
    .answer;
    // 0 where none is booked
    let length = answer.map_or(0, |x| x.length);
    named(rt, line, order, front(&plan, length));
}

// The name of a case, the verdict, and the lines of it.
fn named(rt: &impl Print, line: &[u8], order: &[u8], plan: &[u8]) {
    report::words(rt, field(line, 1));
    report::words(rt, b":");
    print_verdict(rt, check(order, plan));
    let room = figure(field(line, 2), 0) as usize;
    report::figure(rt, b", line in", room as u64);
    print_lines(rt, order, plan, room);
}

fn print_verdict(rt: &impl Print, answer: Result<Verdict, Refusal>) {
    match answer {
        Ok(Verdict::Yes(excess)) => report::figure(rt, b" yes", excess),
        Ok(Verdict::No) => report::words(rt, b" no"),
        Err(x) => report::refusal(rt, x),
    }
}

// The line of the two files, that of the plan behind the order in one file, and whether the rest of both
// texts is kept.
fn print_lines(rt: &impl Print, order: &[u8], plan: &[u8], room: usize) {
    let mut text = [LENT; LENT_BYTES];
    let answer = check_line(order, plan, lent_front(&mut text, room));
    print_line(rt, answer, &text);
    let mut files = [0u8; JOINED_BYTES];
    let mut other = [LENT; LENT_BYTES];
    let same = check_files(
        joined(&mut files, order, plan),
        lent_front(&mut other, room),
    );
    report::words(rt, b", files");
    print_line(rt, same, &other);
    report::kept(
        rt,
        is_lent(&text, report::filled_of(answer)) & is_lent(&other, report::filled_of(same)),
    );
}

// How many bytes were filled, and the line without its newline; or the refusal.
fn print_line(rt: &impl Print, answer: Result<usize, Refusal>, text: &[u8; LENT_BYTES]) {
    report::words(rt, b":");
    report::fill(rt, answer);
    let length = report::filled_of(answer);
    if 0 < length {
        report::words(rt, b" ");
        report::words(rt, front(text, length - 1));
        print_end(rt, text, length - 1);
    }
}

// A line that ends with another byte than a newline is told.
fn print_end(rt: &impl Print, text: &[u8; LENT_BYTES], last: usize) {
    if last < LENT_BYTES {
        if text[last] != b'\n' {
            report::words(rt, b" without newline");
        }
    }
}

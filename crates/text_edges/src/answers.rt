// One text: what it shows, and what the call answers.
use order_text::{Fault, Reason, TextError, order_of_text};
use samples::file_bytes::{LENT, LENT_BYTES, checksum, is_lent, lent_front};
use terms::Refusal;

// A text written into so many bytes.
pub fn into(rt: &impl Print, name: &[u8], text: &[u8], lent: usize) {
    let mut bytes = [LENT; LENT_BYTES];
    let answer = order_of_text(text, lent_front(&mut bytes, lent));
    report::words(rt, name);
    report::words(rt, b":");
    print(rt, answer);
    if let Ok(length) = answer {
        report::words(rt, b" checksum");
        report::number(rt, checksum(&bytes, length) as u64);
    }
    // 0 where none is written
    report::kept(rt, is_lent(&bytes, answer.unwrap_or(0)));
}

pub fn print(rt: &impl Print, answer: Result<usize, TextError>) {
    match answer {
        Ok(length) => report::figure(rt, b" written", length as u64),
        Err(TextError::Faulty(fault)) => print_fault(rt, fault),
        Err(TextError::Refused(refusal)) => report::refusal(rt, refusal),
    }
}

fn print_fault(rt: &impl Print, fault: Fault) {
    report::figure(rt, b" line", fault.line as u64);
    report::figure(rt, b" figure", fault.figure as u64);
    let reason = fault.reason;
    match reason {
        Reason::Byte => report::words(rt, b" byte"),
        Reason::Above => report::words(rt, b" above"),
        Reason::Factor => report::words(rt, b" factor"),
        Reason::Many => report::words(rt, b" many"),
        Reason::Few => report::words(rt, b" few"),
    }
    report::refusal(rt, Refusal::from(reason));
}

// The line of a refusal in a text with so much room.
use crate::service_texts::print;
use cases::{field, figure};
use samples::file_bytes::{LENT, LENT_BYTES, lent_front};
use terms::Refusal;
use text::refusal_line;

pub fn refusal_case(rt: &impl Print, line: &[u8]) {
    let why = numbered(figure(field(line, 1), 0));
    let room = figure(field(line, 2), 0) as usize;
    let mut text = [LENT; LENT_BYTES];
    let answer = refusal_line(why, lent_front(&mut text, room));
    report::figure(rt, b"refusal", u32::from(why) as u64);
    report::figure(rt, b" in", room as u64);
    print(rt, answer, &text);
}

// The refusal with a number; the first where there is none.
fn numbered(number: u32) -> Refusal {
    match number {
        2 => Refusal::Foreign,
        3 => Refusal::Periods,
        4 => Refusal::Misplaced,
        5 => Refusal::Figure,
        6 => Refusal::List,
        7 => Refusal::NoPlan,
        8 => Refusal::Meter,
        9 => Refusal::Full,
        10 => Refusal::Unequal,
        _ => Refusal::Short,
    }
}

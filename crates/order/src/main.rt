// Reads an order typed as text on standard input and writes its order file to standard output; or
// writes nothing there, and one line on standard error that says what is wrong and where. Text has
// at most 65,535 bytes.
#![tactic(auto)]

mod faults;

use console::{INPUT_ROOM, Program};
use order_file::LONGEST_ORDER;
use order_text::{TextError, order_of_text};

fn main(rt: HostRuntime) {
    let program = Program {
        name: "order",
        errors: &rt.stderr(),
    };
    let usage = b"use: order < TEXT > ORDER (figures as decimal text on standard input)\n";
    if !program.has_words(&rt, 1, usage) {
        return;
    }
    let mut text = [0u8; INPUT_ROOM];
    let length = program.read(&rt, &mut text);
    // a buffer that is full may leave text behind
    if length == text.len() {
        faults::long_text(&rt);
        return;
    }
    let text = &text[..length];
    let mut file = [0; LONGEST_ORDER];
    match order_of_text(text, &mut file) {
        Ok(length) => program.put_front(&rt, &file, length),
        Err(TextError::Faulty(fault)) => faults::say(&rt, fault, text),
        // never: the bytes are as many as the longest file has
        Err(TextError::Refused(refusal)) => faults::refused(&rt, refusal),
    }
}

// Prints the smallest depth that carries the trace of the order on standard input at a rate, with what sets
// it, or the refusal line. The argument is the rate.
#![tactic(auto)]

use console::{ORDER_ROOM, Program};
use services::{LONGEST_EXPLAINED, explain_line};
use terms::Rate;

fn main(rt: HostRuntime) {
    let program = Program {
        name: "explain",
        errors: &rt.stderr(),
    };
    let usage = b"use: explain RATE < ORDER (kilobits; an order file on standard input)\n";
    if !program.has_words(&rt, 2, usage) {
        return;
    }
    let Some(rate) = program.kilobits(&rt, 1, "RATE") else {
        return;
    };
    program.answer(
        &rt,
        &mut [0; ORDER_ROOM],
        &mut [0; LONGEST_EXPLAINED],
        |order, text| { explain_line(order, Rate(rate), text) },
    );
}

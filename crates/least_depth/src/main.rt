// Prints the smallest depth that carries the trace of the order on standard input at a rate, or the refusal
// line. The arguments are the rate and, where the order's demands stand in archive order, the word
// from-end.
#![tactic(auto)]

use console::{ORDER_ROOM, Program, is_word};
use services::{LONGEST_DEPTH, depth_from_end_line, depth_line};
use terms::Rate;

fn main(rt: HostRuntime) {
    let program = Program {
        name: "least_depth",
        errors: &rt.stderr(),
    };
    let usage =
        b"use: least_depth RATE [from-end] < ORDER (kilobits; an order file on standard input)\n";
    let from_end = is_word(&rt, 2, b"from-end");
    if !program.has_words(&rt, if from_end { 3 } else { 2 }, usage) {
        return;
    }
    let Some(rate) = program.kilobits(&rt, 1, "RATE") else {
        return;
    };
    program.answer(
        &rt,
        &mut [0; ORDER_ROOM],
        &mut [0; LONGEST_DEPTH],
        |order, text| {
            if from_end {
                depth_from_end_line(order, Rate(rate), text)
            } else {
                depth_line(order, Rate(rate), text)
            }
        },
    );
}

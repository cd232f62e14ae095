// Prints the single bucket for the order on standard input and its cost, or the refusal line.
#![tactic(auto)]

use console::{ORDER_ROOM, Program};
use services::{LONGEST_SINGLE, single_line};

fn main(rt: HostRuntime) {
    let program = Program {
        name: "single_bucket",
        errors: &rt.stderr(),
    };
    let usage = b"use: single_bucket < ORDER (an order file on standard input)\n";
    if program.has_words(&rt, 1, usage) {
        program.answer(
            &rt,
            &mut [0; ORDER_ROOM],
            &mut [0; LONGEST_SINGLE],
            |order, text| { single_line(order, text) },
        );
    }
}

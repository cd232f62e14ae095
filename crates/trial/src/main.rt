// Prints the spare and the discards of a bucket on the trace of the order on standard input, or the
// refusal line. The arguments are the bucket's rate and depth.
#![tactic(auto)]

use console::{ORDER_ROOM, Program};
use services::{LONGEST_TRIAL, trial_line};
use terms::{Bucket, Depth, Rate};

fn main(rt: HostRuntime) {
    let program = Program {
        name: "trial",
        errors: &rt.stderr(),
    };
    let usage = b"use: trial RATE DEPTH < ORDER (kilobits; an order file on standard input)\n";
    if !program.has_words(&rt, 3, usage) {
        return;
    }
    let Some(rate) = program.kilobits(&rt, 1, "RATE") else {
        return;
    };
    let Some(depth) = program.kilobits(&rt, 2, "DEPTH") else {
        return;
    };
    let bucket = Bucket {
        rate: Rate(rate),
        depth: Depth(depth),
    };
    program.answer(
        &rt,
        &mut [0; ORDER_ROOM],
        &mut [0; LONGEST_TRIAL],
        |order, text| { trial_line(order, bucket, text) },
    );
}

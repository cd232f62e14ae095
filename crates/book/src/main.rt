// Books the order on standard input: writes the plan file to standard output; or nothing there, and
// the refusal line to standard error.
#![tactic(auto)]

mod files;

use console::{ORDER_ROOM, Program};
use files::book_file;
use plan_file::LONGEST_PLAN;

fn main(rt: HostRuntime) {
    let program = Program {
        name: "book",
        errors: &rt.stderr(),
    };
    let usage = b"use: book < ORDER > PLAN (an order file on standard input)\n";
    if !program.has_words(&rt, 1, usage) {
        return;
    }
    let mut order = [0u8; ORDER_ROOM];
    let length = program.read(&rt, &mut order);
    let mut bytes = [0u8; LONGEST_PLAN];
    match book_file(&order[..length], &mut bytes) {
        Ok(booked) => program.put_front(&rt, &bytes, booked.length),
        Err(why) => program.refuse(program.errors, why),
    }
}

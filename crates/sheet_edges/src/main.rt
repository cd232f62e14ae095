// Prints the texts of the sheet at the edges of document 01: figures, refusal lines, and what the
// services write of an order, or the refusal; and whether the rest of the text is kept. Cases stand in the
// file stdin, which says its form; orders that a rule gives are made here.
#![tactic(auto)]

mod damaged;
mod figures;
mod long;
mod refusals;
mod service_texts;

use cases::{each_line, first};
use console::{INPUT_ROOM, Program};

fn main(rt: HostRuntime) {
    let mut input = [0u8; INPUT_ROOM];
    let program = Program {
        name: "sheet_edges",
        errors: &rt.stderr(),
    };
    let length = program.read(&rt, &mut input);
    each_line(&input[..length], |line| case(&rt, line));
    damaged::edges(&rt);
    long::edges(&rt);
}

fn case(rt: &impl Print, line: &[u8]) {
    match first(line) {
        b'f' => figures::figure_case(rt, line),
        b'r' => refusals::refusal_case(rt, line),
        b's' => service_texts::services_case(rt, line),
        b'#' => {}
        _ => report::words(rt, b"no such case\n"),
    }
}

// Prints what a check of a plan answers for an order: the verdict, or the refusal; the line of it, of two
// files and of one behind the other; and whether the rest of the text is kept. The cases stand in the file
// stdin, which says its form.
#![tactic(auto)]

mod checks;
mod joined;

use cases::{each_line, first};
use console::{INPUT_ROOM, Program};

fn main(rt: HostRuntime) {
    let mut input = [0u8; INPUT_ROOM];
    let program = Program {
        name: "check_edges",
        errors: &rt.stderr(),
    };
    let length = program.read(&rt, &mut input);
    each_line(&input[..length], |line| case(&rt, line));
}

fn case(rt: &impl Print, line: &[u8]) {
    match first(line) {
        b'c' => checks::check_case(rt, line),
        b'p' => checks::plan_case(rt, line),
        b'b' => checks::booked_case(rt, line),
        b'#' => {}
        _ => report::words(rt, b"no such case\n"),
    }
}

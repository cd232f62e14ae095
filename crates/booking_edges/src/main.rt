// Prints what booking an order answers: the figures, the file read again and the meter of each run, or the
// refusal; and whether the rest of what was lent is kept. The cases stand in the file stdin, which says its
// form.
#![tactic(auto)]

mod edge;
mod recorded;
mod rooms;

use cases::{each_line, first};
use console::{INPUT_ROOM, Program};

fn main(rt: HostRuntime) {
    let mut input = [0u8; INPUT_ROOM];
    let program = Program {
        name: "booking_edges",
        errors: &rt.stderr(),
    };
    let length = program.read(&rt, &mut input);
    each_line(&input[..length], |line| case(&rt, line));
}

fn case(rt: &impl Print, line: &[u8]) {
    match first(line) {
        b'o' => edge::order_case(rt, line),
        b'd' => edge::damaged_case(rt, line),
        b'#' => {}
        _ => report::words(rt, b"no such case\n"),
    }
}

// Prints what the calls on plan files answer at the edges of document 01, an edge to a line: the figures
// and records or the refusal, and whether the rest of what was lent is kept. The cases stand in the file
// stdin, which says its form; before them comes the printed plan byte by byte, and after them the longest.
#![tactic(auto)]

mod longest;
mod printed;
mod readings;
mod writing;

use cases::{field, figure, first};
use console::{INPUT_ROOM, Program};

fn main(rt: HostRuntime) {
    printed::case(&rt);
    let mut input = [0u8; INPUT_ROOM];
    let program = Program {
        name: "plan_edges",
        errors: &rt.stderr(),
    };
    let length = program.read(&rt, &mut input);
    each_case(&rt, &input[..length]);
    longest::edges(&rt);
}

fn each_case(rt: &impl Print, input: &[u8]) {
    for line in input.split(|&byte| byte == b'\n') {
        case(rt, line);
    }
}

fn case(rt: &impl Print, line: &[u8]) {
    match first(line) {
        b'r' => readings::read_case(rt, line),
        b'w' => writing::write_case(rt, line),
        b'#' => {}
        _ => report::words(rt, b"no such case\n"),
    }
}

// A number of bytes or of entries.
fn entries(field: &[u8]) -> usize {
    figure(field, 0) as usize
}

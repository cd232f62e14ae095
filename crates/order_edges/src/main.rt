// Prints what the calls on order files answer at the edges of document 01, an edge to a line: the figures
// or the refusal, and whether the rest of what was lent is kept. The cases stand in the file stdin, which
// says its form; before them comes the printed order byte by byte, and after them files around the longest.
#![tactic(auto)]

mod demands;
mod longest;
mod printed;
mod readings;
mod spreads;
mod written;

use cases::{each_line, field, figure, first};
use console::{INPUT_ROOM, Program};

fn main(rt: HostRuntime) {
    printed::case(&rt);
    let mut input = [0u8; INPUT_ROOM];
    let program = Program {
        name: "order_edges",
        errors: &rt.stderr(),
    };
    let length = program.read(&rt, &mut input);
    each_line(&input[..length], |line| case(&rt, line));
    longest::edges(&rt);
    longest::megabyte(&rt);
}

fn case(rt: &impl Print, line: &[u8]) {
    match first(line) {
        b'r' => readings::read_case(rt, line),
        b'w' => written::write_case(rt, line),
        b'f' => written::file_case(rt, line),
        b's' => spreads::edge(rt, entries(field(line, 1)), entries(field(line, 2))),
        b'#' => {}
        _ => report::words(rt, b"no such case\n"),
    }
}

// A number of bytes or of entries.
fn entries(field: &[u8]) -> usize {
    figure(field, 0) as usize
}

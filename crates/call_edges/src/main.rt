// Prints what the calls on a bucket, a meter and a trace answer at the edges of document 01, an edge to a
// line: ranges, trial, meter, depth from either end of a trace and its cause, single and series. The cases
// stand in the file stdin, which says its form; after them come the meter that is offered a million periods
// and the run of a million demands.
#![tactic(auto)]

mod answers;
mod meters;
mod million;

use cases::{each_line, field, first};
use console::{INPUT_ROOM, Program};

fn main(rt: HostRuntime) {
    let mut input = [0u8; INPUT_ROOM];
    let program = Program {
        name: "call_edges",
        errors: &rt.stderr(),
    };
    let length = program.read(&rt, &mut input);
    each_line(&input[..length], |line| case(&rt, line));
    million::offers_until_full(&rt);
    million::runs(&rt);
}

fn case(rt: &impl Print, line: &[u8]) {
    match first(line) {
        b'#' => {}
        b'm' => meters::offers(rt, field(line, 1), meters::meter(field(line, 2))),
        _ => answers::named(rt, line),
    }
}

// Prints what the calls on typed orders answer at the edges, an edge to a line: the length and the
// checksum of the file that is written, or the fault, and whether the rest of the bytes is kept; the
// words around the places of texts; and the numbers that words stand for. The cases stand in the file
// stdin, which says its form.
#![tactic(auto)]

mod answers;
mod bytes;
mod counts;
mod places;
mod words;

use cases::{PLAIN_ROOM, each_line, field, first, number, plain};
use console::{INPUT_ROOM, Program};
use samples::file_bytes::LENT_BYTES;

fn main(rt: HostRuntime) {
    let mut input = [0u8; INPUT_ROOM];
    let program = Program {
        name: "text_edges",
        errors: &rt.stderr(),
    };
    let length = program.read(&rt, &mut input);
    each_line(&input[..length], |line| case(&rt, line));
}

// One case, told by its first letter; a text is the last field.
fn case(rt: &impl Print, line: &[u8]) {
    let kind = first(line);
    let last = if kind == b't' { 3 } else { 1 };
    let mut typed = [0u8; PLAIN_ROOM];
    let text = plain(field(line, last), &mut typed);
    match kind {
        b't' => answers::into(rt, field(line, 1), text, room(field(line, 2))),
        b'p' => places::every_place(rt, text),
        b'f' => places::fault(rt, text),
        b'b' => bytes::each_byte(rt, text),
        b'd' => counts::first_bytes(rt, text, room(field(line, 2))),
        b'w' => words::print_number(rt, text),
        b'#' => {}
        _ => report::words(rt, b"no such case\n"),
    }
}

// How many bytes are lent: so many, or more than any order needs.
fn room(field: &[u8]) -> usize {
    if field.is_empty() {
        return LENT_BYTES;
    }
    number(field) as usize
}

// The printed case's order: written, shown byte by byte, read and spread.
use crate::demands::print_demand;
use crate::readings::reading;
use order_file::{spread, trace_part, write_order};
use samples::file_bytes::{FILE_ROOM, LENT, front};
use samples::tariffs::printed_case;
use samples::traces::CASE;

pub fn case(rt: &impl Print) {
    let trace = CASE;
    let mut bytes = [LENT; FILE_ROOM];
    let answer = write_order(printed_case(), &trace, &mut bytes);
    report::words(rt, b"printed case:");
    report::fill(rt, answer);
    report::end_line(rt);
    show(rt, bytes);
}

// The 54 bytes, what reading them gives, and the demands in the trace's part.
fn show(rt: &impl Print, bytes: [u8; FILE_ROOM]) {
    let file = front(&bytes, 54);
    report::hex_lines(rt, file);
    reading(rt, file);
    let mut demands = [0u16; 3];
    let answer = spread(trace_part(file), &mut demands);
    report::words(rt, b"demands");
    print_demand(rt, demands[0]);
    print_demand(rt, demands[1]);
    print_demand(rt, demands[2]);
    report::words(rt, b":");
    report::fill(rt, answer);
    report::end_line(rt);
}

// The printed case's plan: written, shown byte by byte, and read.
use crate::readings::read_into;
use list_calls::write_on;
use plan_file::PlanFigures;
use samples::file_bytes::{FILE_ROOM, LENT, front};
use samples::lent_records::{ENTRIES, record_of};

pub fn case(rt: &impl Print) {
    let plan = PlanFigures {
        periods: 3,
        buckets: 2,
        cost: 40,
    };
    let mut list = [record_of(0, 0, 0); ENTRIES];
    list[0] = record_of(2, 5, 4);
    list[1] = record_of(1, 0, 4);
    let mut bytes = [LENT; FILE_ROOM];
    let answer = write_on(plan, list, 2, &mut bytes);
    report::words(rt, b"printed case:");
    report::fill(rt, answer);
    report::end_line(rt);
    show(rt, bytes);
}

// The 56 bytes and what reading them gives.
fn show(rt: &impl Print, bytes: [u8; FILE_ROOM]) {
    let file = front(&bytes, 56);
    report::hex_lines(rt, file);
    read_into(rt, file, 2);
}

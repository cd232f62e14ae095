// A part of an order spread into a list of demands.
ghost use Rattle.std.specs.Prelude.{◌≡◌, length};

use crate::demands::print_list;
use order_file::spread;
use samples::demands::{LENT_DEMAND, lent_demands};
use samples::file_bytes::front;
use samples::lent_records::ENTRIES;
use std::array;

// One demand more than a part may hold.
const PART_BYTES: usize = 1026;

// One edge: a part of so many bytes, spread into a list of so many entries.
pub fn edge(rt: &impl Print, part: usize, list: usize) {
    let bytes = part_bytes();
    let mut demands = [LENT_DEMAND; ENTRIES];
    let answer = spread(front(&bytes, part), lent_demands(&mut demands, list));
    report::words(rt, b"part of");
    report::number(rt, part as u64);
    report::words(rt, b" in a list of");
    report::number(rt, list as u64);
    report::words(rt, b":");
    print_list(rt, answer, &demands);
}

// Bytes in no order.
fn part_bytes() -> [u8; PART_BYTES]
    ensures { 1026 ≡ length result }
{
    array::from_fn(|i| ((i * 167 + i / 7) % 251) as u8)
}

// Orders around the longest, and a file of a megabyte.
use crate::readings::reading;
use crate::written::{cut, written};
use cases::{DEMANDS, trace};
use order_file::LONGEST_ORDER;

// The longest order, one byte less and one more; and a file for 513 periods, right but for that.
pub fn edges(rt: &impl Print) {
    let mut room = [0u16; DEMANDS];
    let mut bytes = written(rt, trace(b"uneven", &mut room));
    cut(rt, bytes, LONGEST_ORDER - 1);
    cut(rt, bytes, LONGEST_ORDER + 1);
    bytes[4] = 1;
    bytes[16] = 50;
    cut(rt, bytes, LONGEST_ORDER + 2);
}

// A megabyte of 0.
pub fn megabyte(rt: &impl Print) {
    let bytes = [0u8; 1_048_576];
    reading(rt, &bytes);
}

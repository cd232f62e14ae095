// The bytes of files: in hexadecimal, and as lent bytes that a call has filled.
use crate::file_answers::{fill, filled_of};
use crate::lent_lists::kept;
use crate::{end_line, number, words};
use samples::file_bytes::{LENT_BYTES, checksum, is_lent};
use terms::Refusal;

// All bytes, 16 to a line.
pub fn hex_lines(rt: &impl Print, bytes: &[u8]) {
    for (i, &byte) in bytes.iter().enumerate() {
        hex(rt, byte);
        if i % 16 == 15 {
            end_line(rt);
        }
    }
    if bytes.len() % 16 != 0 {
        end_line(rt);
    }
}

// A space and the two digits of a byte.
fn hex(rt: &impl Print, byte: u8) {
    let _ = print!(rt; " {byte:02x}");
}

// How many bytes were filled and their checksum, or the refusal; then whether every byte after
// those filled is as it was lent.
pub fn written(rt: &impl Print, answer: Result<usize, Refusal>, bytes: &[u8; LENT_BYTES]) {
    let length = filled_of(answer);
    fill(rt, answer);
    if 0 < length {
        words(rt, b" checksum");
        number(rt, checksum(bytes, length) as u64);
    }
    kept(rt, is_lent(bytes, length));
}

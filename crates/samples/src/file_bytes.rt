// Bytes of files: a checksum, and lent bytes that are compared after a call.
use plan_file::LONGEST_PLAN;

// Bytes for the printed case's order or plan, and some more.
pub const FILE_ROOM: usize = 64;

// Some more bytes than the longest file has, a plan of 512 buckets.
pub const LENT_BYTES: usize = LONGEST_PLAN + 8;

// What lent bytes hold before a call.
pub const LENT: u8 = 0xAA;

// The first bytes, or all where there are fewer.
pub fn front(bytes: &[u8], length: usize) -> &[u8] {
    &bytes[..length.min(bytes.len())]
}

// The same of bytes to be written to.
pub fn lent_front(bytes: &mut [u8], length: usize) -> &mut [u8] {
    let length = length.min(bytes.len());
    &mut bytes[..length]
}

// A number that each of the first bytes and its place enter.
pub fn checksum(bytes: &[u8; LENT_BYTES], length: usize) -> u32 {
    bytes
        .iter()
        .take(length)
        .fold(0, |sum, &byte| summed(sum, byte as u16))
}

// A checksum with one number more.
pub fn summed(sum: u32, n: u16) -> u32 {
    (sum % 1_000_003 * 257 + n as u32) % 1_000_003
}

// Whether the bytes from one on are as they were lent.
pub fn is_lent(bytes: &[u8; LENT_BYTES], start: usize) -> bool {
    bytes.iter().skip(start).all(|&byte| byte == LENT)
}

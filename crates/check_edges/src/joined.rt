// Two files one behind the other.
use samples::file_bytes::LENT_BYTES;

// Room for two files of any length that a case has.
pub const JOINED_BYTES: usize = 2 * LENT_BYTES;

// Stores the second file behind the first, as far as there is room, and gives both.
pub fn joined<'a>(room: &'a mut [u8; JOINED_BYTES], first: &[u8], second: &[u8]) -> &'a [u8] {
    let middle = put_file(room, 0, first);
    let end = put_file(room, middle, second);
    &room[..end.min(room.len())]
}

// Stores a file from a place on, as far as there is room, and gives the place behind it.
fn put_file(room: &mut [u8], from: usize, file: &[u8]) -> usize {
    let from = from.min(room.len());
    let length = file.len().min(room.len() - from);
    room[from..from + length].copy_from_slice(&file[..length]);
    from + length
}

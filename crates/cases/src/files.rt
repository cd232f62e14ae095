// A file of up to 32 numbers of 4 bytes.
ghost use Rattle.std.specs.Prelude.{◌≡◌, length};

use crate::numbers::figure;
use std::array;

// As long as a file may be.
pub const FILE_ROOM: usize = 128;

// The bytes of the figures of a field, 4 to a figure and lowest first, and 0 behind them. The length is
// promised so that the array can be lent.
pub fn file_of(field: &[u8]) -> [u8; FILE_ROOM]
    ensures { 128 ≡ length result }
{
    array::from_fn(|i| figure(field, i / 4).to_le_bytes()[i % 4])
}

// Texts of many demands, a figure to a line.
ghost use Rattle.std.specs.Prelude.{◌≡◌, length};

use crate::answers::into;
use samples::file_bytes::{LENT_BYTES, front};
use std::array;

// 600 figures, a digit and a newline for each.
const TEXT_BYTES: usize = 1200;

// The first bytes of such a text.
pub fn first_bytes(rt: &impl Print, name: &[u8], length: usize) {
    let text = lines();
    into(rt, name, front(&text, length), LENT_BYTES);
}

// The digits 0 to 9 over and over: the first seven are a tariff. The length is promised so that the
// array can be lent.
fn lines() -> [u8; TEXT_BYTES]
    ensures { 1200 ≡ length result }
{
    array::from_fn(|i| if i % 2 == 0 {
        (48 + i / 2 % 10) as u8
    } else {
        b'\n'
    })
}

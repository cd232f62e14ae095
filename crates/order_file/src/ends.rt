// Where an order ends that a second file follows.
ghost use Rattle.std.specs.Prelude.{◌≡◌};
ghost use Rattle.order_file.specs.Order.{order_end};

use crate::orders::TARIFF_OFFSET;
use encoding::numbers::word_at;

// The bytes that belong to the order: as many as its header states, at least 20, or all where there
// are fewer.
pub fn order_end(bytes: &[u8]) -> usize
    ensures { result ≡ order_end bytes.now }
{
    if bytes.len() < TARIFF_OFFSET {
        return bytes.len();
    }
    let stated = word_at(bytes, 16).max(TARIFF_OFFSET as u32);
    bytes.len().min(stated as usize)
}

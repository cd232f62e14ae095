// Where the parts of a file lie. Public only for the crates above, which show what is required.
ghost use Rattle.std.specs.Prelude.{◌+◌, ◌≤◌, ◌≡◌, length};
ghost use Rattle.encoding.specs.Header.{placed_as};

use crate::numbers::word_at;

// Whether the header's two offsets and its file length, from `at` on, are the given ones, and the
// bytes are that many.
pub fn placed(bytes: &[u8], at: usize, first: usize, second: usize, size: usize) -> bool
    requires { at + 12 ≤ length bytes.now }
    ensures { result ≡ placed_as at first second size bytes.now }
{
    (word_at(bytes, at) as usize == first)
        & (word_at(bytes, at + 4) as usize == second)
        & (word_at(bytes, at + 8) as usize == size)
        & (bytes.len() == size)
}

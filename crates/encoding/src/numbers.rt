// Little-endian numbers of 1 to 8 bytes. Public only for the crates above, which show what is
// required.
ghost use Rattle.std.specs.Prelude.{◌+◌, ◌*◌, ◌^◌, ◌≤◌, ◌<◌, ◌≡◌, ℕ, length};
ghost use Rattle.std.proofs.lemmas.List.Edits.{sets};
ghost use Rattle.encoding.specs.Number.{bytes_of, bytes_of_all, number_at};

// The number of `width` bytes at `at`, taken from its highest byte down.
pub fn number_at(bytes: &[u8], at: usize, width: usize) -> u64
    requires width_bound { width ≤ 8 }
    requires width_in_bounds { at + width ≤ length bytes.now }
    ensures value { result ≡ number_at width bytes.now at }
    ensures upper_bound { result < 256 ^ width }
{
    let mut value: u64 = 0;
    for k in (0..width).rev() {
        value = value * 256 + bytes[at + k] as u64;
    }
    value
}

// The number of 4 bytes at `at`.
pub fn word_at(bytes: &[u8], at: usize) -> u32
    requires { at + 4 ≤ length bytes.now }
    ensures { result ≡ number_at 4 bytes.now at }
{
    number_at(bytes, at, 4) as u32
}

// Stores the `width` bytes of a number from `at` on.
pub fn put_number(bytes: &mut [u8], at: usize, width: usize, value: u64)
    requires { at + width ≤ length bytes.old }
    ensures { bytes.new ≡ sets bytes.old at (bytes_of width value) }
{
    let mut rest = value;
    for k in 0..width {
        bytes[at + k] = (rest % 256) as u8;
        rest /= 256;
    }
}

// A number that the files hold, in as many bytes as its type has.
pub trait Word: Copy {
    ghost number: { Self → ℕ };

    ghost SIZE: { ℕ };

    const SIZE: usize;

    fn to_u64(self) -> u64
        ensures { result ≡ number self };
}

impl Word for u16 {
    ghost number = { λ n. n };

    ghost SIZE = { 2 };

    const SIZE: usize = 2;

    fn to_u64(self) -> u64 {
        self as u64
    }
}

impl Word for u32 {
    ghost number = { λ n. n };

    ghost SIZE = { 4 };

    const SIZE: usize = 4;

    fn to_u64(self) -> u64 {
        self as u64
    }
}

// Stores the bytes of each number of a list from `at` on.
pub fn put_words<T: Word>(bytes: &mut [u8], at: usize, words: &[T])
    requires { at + T.SIZE * length words.now ≤ length bytes.old }
    ensures { bytes.new ≡ sets bytes.old at (bytes_of_all (λ n. bytes_of T.SIZE (T.number n)) words.now) }
{
    let mut next = at;
    for &word in words {
        put_number(bytes, next, T::SIZE, word.to_u64());
        next += T::SIZE;
    }
}

// Numbers in decimal digits, stored in a text. Public only for this crate, whose calls show what is
// required.
ghost use Rattle.std.specs.Prelude.{◌+◌, ◌≤◌, ◌≡◌, length};
ghost use Rattle.std.proofs.lemmas.List.Edits.{sets};
ghost use Rattle.text.specs.Numeral.{digits, ended, numeral};
ghost use Rattle.text.specs.PutLaws.{Puts};

// How many digits a number has.
pub fn places(n: u64) -> usize
    ensures { result ≡ length (numeral n) }
{
    n.max(1).ilog10() as usize + 1
}

// Stores the last `count` digits of a number from `at` on, the lowest first.
pub fn put_digits(text: &mut [u8], at: usize, count: usize, n: u64)
    requires { at + count ≤ length text.old }
    ensures { text.new ≡ sets text.old at (digits count n) }
{
    let mut rest = n;
    for k in (0..count).rev() {
        text[at + k] = 48 + (rest % 10) as u8;
        rest /= 10;
    }
}

// Stores a number from `at` on, then a byte, and answers the place behind both.
pub fn put_number(text: &mut [u8], at: usize, n: u64, after: u8) -> usize
    requires { at + length (ended (numeral n) after) ≤ length text.old }
    ensures { Puts text.old at (ended (numeral n) after) text.new result }
{
    let count = places(n);
    put_digits(text, at, count, n);
    let end = at + count;
    text[end] = after;
    end + 1
}

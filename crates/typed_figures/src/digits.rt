// Decimal digits, one by one. Public only for the crates above, which show what is required.
ghost use Rattle.std.specs.Prelude.{◌≡◌, true};
ghost use Rattle.typed_figures.specs.Decimal.{is_digit, pushed};

// Whether a byte is a decimal digit.
pub fn is_digit(byte: u8) -> bool
    ensures { result ≡ is_digit byte }
{
    byte.is_ascii_digit()
}

// A number with one more digit behind it; none where this is above the limit.
pub fn push_digit(value: u32, byte: u8, limit: u32) -> Option<u32>
    requires { is_digit byte ≡ true }
    ensures { result ≡ pushed limit value byte }
{
    let next = value as u64 * 10 + (byte - b'0') as u64;
    if (limit as u64) < next {
        return None;
    }
    Some(next as u32)
}

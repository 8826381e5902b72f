//! Numbers as digits.

ghost use Rattle.std.specs.Prelude.{◌≡◌, ◌⊎◌, ◌^◌, ◌<◌, ◌+◌, ◌*◌, SomeIff};
ghost use Rattle.std.specs.Char.{digit_value};
ghost use Rattle.hii_bytes.specs.Digits.{number_below};

/// The number below 2^64 that one to `most` digits of the radix 10 or 16 write, if the text is that.
pub fn number_of_digits(text: &[u8], radix: u32, most: usize) -> Option<u64>
    requires { (radix ≡ 10) ⊎ (radix ≡ 16) }
    ensures { result ≡ number_below (2 ^ 64) radix most text.now }
{
    if text.is_empty() || text.len() > most {
        return None;
    }
    let mut number = 0;
    for byte in text {
        number = with_digit(number, *byte, radix)?;
    }
    Some(number)
}

// The number with one more digit, if the byte is one and it stays below 2^64.
fn with_digit(number: u64, byte: u8, radix: u32) -> Option<u64>
    requires { (radix ≡ 10) ⊎ (radix ≡ 16) }
    ensures { SomeIff result ((digit_value byte < radix)
        × (number * radix + digit_value byte < 2 ^ 64)) (number * radix + digit_value byte) }
{
    let digit = char::from(byte).to_digit(radix)?;
    number
        .checked_mul(u64::from(radix))?
        .checked_add(u64::from(digit))
}

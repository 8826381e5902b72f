//! Hex digits as numbers.

ghost use Rattle.std.specs.Prelude.{◌≡◌, ◌+◌, ◌*◌, ◌^◌, ◌<◌, ◌≤◌, true, length};
ghost use Rattle.std.specs.Str.Parse.{digits_value};
ghost use Rattle.config_text.specs.code.PartReading.{are_hex};

use hex::decode_to_slice;

// The number that four hex digits at most write: 0 where there is none.
pub(crate) fn number_of_four(digits: &[u8]) -> u16
    requires hex { are_hex digits.now ≡ true }
    requires few { length digits.now ≤ 4 }
    ensures number { result ≡ digits_value 16 digits.now }
    ensures small { result < 16 ^ length digits.now }
{
    let mut padded = [b'0'; 4];
    padded[4 - digits.len()..].copy_from_slice(digits);
    let mut bytes = [0u8; 2];
    decode_to_slice(padded, &mut bytes).unwrap();
    u16::from_be_bytes(bytes)
}

// The lowest byte of the number that digits write, and the digits before those of this byte.
pub(crate) fn split_byte(digits: &[u8]) -> (u8, &[u8])
    requires { are_hex digits.now ≡ true }
    ensures value { digits_value 16 digits.now ≡ 256 * digits_value 16 result.1.now + result.0 }
    ensures hex { are_hex result.1.now ≡ true }
{
    let (higher, lowest) = digits.split_at(digits.len().saturating_sub(2));
    (number_of_four(lowest) as u8, higher)
}

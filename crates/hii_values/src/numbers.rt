//! Numbers of some bytes, signed or not.

ghost use Rattle.std.specs.Prelude.{◌≡◌, ◌≤◌, ◌*◌, ◌/◌, ◌^◌, true, pos, length};
ghost use Rattle.byteorder.specs.Endian.{little_number};
ghost use Rattle.hii_values.specs.Inputs.{number_of_bits, bits_of, fitting_bits};
ghost use Rattle.hii_values.specs.code.Widths.{is_width};

use hii_bytes::number_at;

// The first bits of `width` bytes that are negative as a signed number.
fn half(width: usize) -> i128
    requires { is_width width ≡ true }
    ensures value { result ≡ pos (256 ^ width / 2) }
    ensures whole { 2 * (256 ^ width / 2) ≡ 256 ^ width }
    ensures small { 256 ^ width ≤ 2 ^ 64 }
{
    1 << (8 * width - 1)
}

/// The number that the bits of `width` bytes are, with a sign that of their two's complement. The width is 1, 2, 4 or 8.
pub fn shown(signed: bool, width: usize, bits: u64) -> i128
    requires { is_width width ≡ true }
    ensures { result ≡ number_of_bits signed width bits }
{
    let number = i128::from(bits);
    let half = half(width);
    if signed && half <= number {
        number - (half + half)
    } else {
        number
    }
}

/// The bits of `width` bytes that are a number, where there are some.
pub(crate) fn bits_of(signed: bool, width: usize, number: i128) -> Option<u64>
    requires { is_width width ≡ true }
    ensures { result ≡ bits_of signed width number }
{
    let half = half(width);
    if number < 0 {
        if !signed || number < -half {
            return None;
        }
        return Some((number + (half + half)) as u64);
    }
    let end = if signed { half } else { half + half };
    if end <= number {
        return None;
    }
    Some(number as u64)
}

/// The number in the first `width` bytes.
#[tactic(auto, using(crate::proofs::ItemLemmas::widths), unfolding(hii_bytes::specs::Numbers::number_in))]
pub(crate) fn number_of(bytes: &[u8], width: usize) -> u64
    requires wide { is_width width ≡ true }
    requires within { width ≤ length bytes.now }
    ensures { result ≡ little_number width bytes.now }
{
    number_at(bytes, 0, width).unwrap()
}

/// A number of `width` bytes that is these bits, where they are not too many.
pub fn fitting_bits(width: usize, bits: u64) -> Option<u64>
    requires { is_width width ≡ true }
    ensures { result ≡ fitting_bits width bits }
{
    if i128::from(bits) < 2 * half(width) {
        Some(bits)
    } else {
        None
    }
}

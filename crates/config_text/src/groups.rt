//! Groups of hex digits.

ghost use Rattle.std.specs.Prelude.{◌≡◌, ◌<◌, ◌⊎◌, ◌/◌, ◌^◌, true, length, slice_index};
ghost use Rattle.std.specs.Bool.{Decides};
ghost use Rattle.config_text.specs.code.PartReading as parts;

use crate::digits::number_of_four;

// Whether the text is hex digits.
pub(crate) fn are_hex(text: &[u8]) -> bool
    ensures { result ≡ parts.are_hex text.now }
{
    text.iter().all(|byte| char::from(*byte).is_digit(16))
}

// Whether the text is whole groups of hex digits.
pub(crate) fn are_groups(text: &[u8], size: usize) -> bool
    requires { 0 < size }
    ensures { result ≡ parts.is_grouped size text.now }
{
    are_hex(text) && text.len() % size == 0
}

// The number of a group.
pub(crate) fn group_at(digits: &[u8], size: usize, place: usize) -> u16
    requires sized { (size ≡ 2) ⊎ (size ≡ 4) }
    requires grouped { parts.is_grouped size digits.now ≡ true }
    requires inside { place < length digits.now / size }
    ensures number { result ≡ slice_index (parts.group_numbers size digits.now) place }
    ensures small { result < 16 ^ size }
{
    let start = place * size;
    number_of_four(&digits[start..start + size])
}

// Whether the groups write these numbers.
pub(crate) fn are_numbers(digits: &[u8], size: usize, wanted: &[u8]) -> bool
    requires sized { (size ≡ 2) ⊎ (size ≡ 4) }
    requires grouped { parts.is_grouped size digits.now ≡ true }
    ensures { Decides result (parts.group_numbers size digits.now ≡ wanted.now) }
{
    if digits.len() / size != wanted.len() {
        return false;
    }
    for (place, byte) in wanted.iter().enumerate() {
        if group_at(digits, size, place) != u16::from(*byte) {
            return false;
        }
    }
    true
}

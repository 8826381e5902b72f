//! Numbers in bytes, the lowest byte first (UEFI 2.8, 1.8.1 Data Structure Descriptions).

ghost use Rattle.std.specs.Prelude.{◌≡◌, ◌+◌, ◌<◌, ◌≤◌, ◌⊎◌, length, SomeIff, IfSome, ◌^◌};
ghost use Rattle.hii_bytes.specs.Numbers.{number_in};

use byteorder::{ByteOrder, LittleEndian};

/// The number in the two bytes at a place, if they are there.
#[tactic(auto, unfolding(crate::specs::Numbers::number_in))]
pub fn u16_at(bytes: &[u8], at: usize) -> Option<u16>
    ensures { SomeIff result (at + 2 ≤ length bytes.now) (number_in bytes.now at 2) }
{
    let rest = bytes.get(at..)?;
    if rest.len() < 2 {
        return None;
    }
    Some(LittleEndian::read_u16(rest))
}

/// The number in the four bytes at a place, if they are there.
#[tactic(auto, unfolding(crate::specs::Numbers::number_in))]
pub fn u32_at(bytes: &[u8], at: usize) -> Option<u32>
    ensures { SomeIff result (at + 4 ≤ length bytes.now) (number_in bytes.now at 4) }
{
    let rest = bytes.get(at..)?;
    if rest.len() < 4 {
        return None;
    }
    Some(LittleEndian::read_u32(rest))
}

/// The number in the eight bytes at a place, if they are there.
#[tactic(auto, unfolding(crate::specs::Numbers::number_in))]
pub fn u64_at(bytes: &[u8], at: usize) -> Option<u64>
    ensures { SomeIff result (at + 8 ≤ length bytes.now) (number_in bytes.now at 8) }
{
    if bytes.len() < 8 || bytes.len() - 8 < at {
        return None;
    }
    Some(LittleEndian::read_u64(&bytes[at..]))
}

/// The number in the `width` bytes at a place, if they are there.
#[tactic(auto, unfolding(crate::specs::Numbers::number_in))]
pub fn number_at(bytes: &[u8], at: usize, width: usize) -> Option<u64>
    requires { (width ≡ 1) ⊎ (width ≡ 2) ⊎ (width ≡ 4) ⊎ (width ≡ 8) }
    ensures { SomeIff result (at + width ≤ length bytes.now) (number_in bytes.now at width) }
{
    match width {
        1 => bytes.get(at).map(|byte| u64::from(*byte)),
        2 => u16_at(bytes, at).map(u64::from),
        4 => u32_at(bytes, at).map(u64::from),
        8 => u64_at(bytes, at),
        _ => unreachable!(),
    }
}

/// The number in the three bytes at a place, if they are there.
#[tactic(auto, unfolding(crate::specs::Numbers::number_in))]
pub fn u24_at(bytes: &[u8], at: usize) -> Option<u32>
    ensures value { SomeIff result (at + 3 ≤ length bytes.now) (number_in bytes.now at 3) }
    ensures small { IfSome result (λ n. n < 2 ^ 24) }
{
    let rest = bytes.get(at..)?;
    if rest.len() < 3 {
        return None;
    }
    Some(LittleEndian::read_u24(rest))
}

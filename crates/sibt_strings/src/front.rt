//! The block at the front of the bytes of blocks.

ghost use Rattle.std.specs.Prelude.{◌≡◌, ◌+◌, ◌<◌, ◌≤◌, true, length, IfSome, MatchOption, option_map};
ghost use Rattle.browser_rules.specs.Strings.{cut_text, cut_texts};
ghost use Rattle.sibt_strings.specs.code.Blocks.{front_of, texts_block, extension_block};
ghost use Rattle.sibt_strings.specs.code.Ends.{Stops};
ghost use Rattle.sibt_strings.specs.code.Texts.{AreUnits, IsRest};
ghost use Rattle.sibt_strings.specs.code.Views.{units_in, head_seen, head_or_bad, front_seen, EndsWith, HasBehind, LiesIn, LeavesLess, SplitsInto};

use crate::block::{Block, Texts};
use crate::block_types::{
    DUPLICATE, END, EXT1, EXT2, EXT4, SKIP1, SKIP2, STRING_UCS2, STRING_UCS2_FONT, STRINGS_UCS2,
    STRINGS_UCS2_FONT,
};
use crate::units::Units;
use hii_bytes::{u16_at, u32_at};

/// What stands at the front of the bytes of blocks, before its texts are split.
#[derive(Clone, Copy)]
pub(crate) enum Head<'a> {
    End,
    /// A block of so many texts, which stand at the front of the bytes if they are whole.
    Texts(u16, &'a [u8]),
    /// One id has the text of this one. The bytes stand behind the block, as those of the two that follow.
    Duplicate(u16, &'a [u8]),
    /// So many ids have no text.
    Skip(u16, &'a [u8]),
    Extension(&'a [u8]),
    BadBlock,
}

/// What stands at the front of the bytes of blocks.
#[derive(Clone, Copy)]
pub(crate) enum Front<'a> {
    End,
    /// A whole block, and the bytes behind it.
    Whole(Block<'a>, &'a [u8]),
    CutText,
    BadBlock,
}

// Whether a unit that is not zero stands at an index.
#[inline(always)]
fn has_unit(bytes: &[u8], at: usize) -> bool
    ensures { result ≡ true → AreUnits bytes.now at (at + 2) }
{
    match u16_at(bytes, at) {
        Some(unit) => unit != 0,
        None => false,
    }
}

// Whether two such units stand there.
#[inline(always)]
fn has_two_units(bytes: &[u8], at: usize) -> bool
    requires { at + 4 ≤ length bytes.now }
    ensures { result ≡ true → AreUnits bytes.now at (at + 4) }
{
    has_unit(bytes, at) && has_unit(bytes, at + 2)
}

// Whether four such units stand at the front.
#[inline(always)]
fn has_four_units(bytes: &[u8]) -> bool
    ensures { result ≡ true → AreUnits bytes.now 0 8 }
{
    if bytes.len() < 8 {
        return false;
    }
    has_two_units(bytes, 0) && has_two_units(bytes, 4)
}

// The bytes behind the units at the front, four at a time, of which none is zero.
#[inline(always)]
fn behind_units(bytes: &[u8]) -> &[u8]
    ensures { IsRest bytes.entry.now result.now }
{
    let mut rest = bytes;
    while has_four_units(rest) {
        rest = &rest[8..];
    }
    rest
}

/// The units of a text without its zero unit, and the bytes behind that unit.
pub(crate) fn split_text(bytes: &[u8]) -> Option<(Units<'_>, &[u8])>
    ensures text { option_map (λ t. (units_in t.0, t.1.now)) result ≡ cut_text bytes.now }
    ensures rest { IfSome result (λ t. EndsWith bytes.now t.1.now) }
{
    let mut rest = behind_units(bytes);
    while let [low, high, behind @ ..] = rest {
        if *low == 0 && *high == 0 {
            return Some((Units::new(&bytes[..bytes.len() - rest.len()]), behind));
        }
        rest = behind;
    }
    None
}

/// The bytes behind so many texts.
pub(crate) fn skip_texts(count: u16, bytes: &[u8]) -> Option<&[u8]>
    ensures behind { option_map (λ rest. rest.now) result
        ≡ option_map (λ t. t.1) (cut_texts count bytes.now) }
    ensures rest { IfSome result (λ rest. EndsWith bytes.now rest.now) }
{
    let mut rest = bytes;
    for _ in 0..count {
        let (_, behind) = split_text(rest)?;
        rest = behind;
    }
    Some(rest)
}

// A block of so many texts.
fn texts_front(count: u16, bytes: &[u8]) -> Front<'_>
    ensures front { front_seen result ≡ texts_block (cut_texts count bytes.now) }
    ensures inside { LiesIn result bytes.now }
    ensures shorter { LeavesLess result (length bytes.now + 1) }
{
    match skip_texts(count, bytes) {
        Some(rest) => Front::Whole(Block::Texts(Texts { count, bytes }), rest),
        None => Front::CutText,
    }
}

// An extension of a length in bytes, whose own header takes so many; none where the length is below that or past the bytes.
fn extension_head(header: usize, size: usize, bytes: &[u8]) -> Option<Head<'_>>
    requires { 0 < header }
    ensures head { head_or_bad result ≡ extension_block header size bytes.now }
    ensures inside { IfSome result (λ head. HasBehind head (EndsWith bytes.now)) }
    ensures shorter { IfSome result (λ head. HasBehind head (λ rest.
        length rest < length bytes.now)) }
{
    if size < header || bytes.len() < size {
        return None;
    }
    Some(Head::Extension(&bytes[size..]))
}

// What stands at the front of the bytes of blocks; none where that is no known block or its fields are cut.
#[tactic(auto, unfolding(crate::specs::code::Blocks::front_of))]
fn known_head(bytes: &[u8]) -> Option<Head<'_>>
    ensures head { head_or_bad result ≡ front_of bytes.now }
    ensures inside { IfSome result (λ head. HasBehind head (EndsWith bytes.now)) }
    ensures shorter { IfSome result (λ head. HasBehind head (λ rest.
        length rest < length bytes.now)) }
{
    let [block_type, body @ ..] = bytes else {
        return None;
    };
    match *block_type {
        END => Some(Head::End),
        STRING_UCS2 => Some(Head::Texts(1, body)),
        STRING_UCS2_FONT => Some(Head::Texts(1, body.get(1..)?)),
        STRINGS_UCS2 => Some(Head::Texts(u16_at(body, 0)?, &body[2..])),
        STRINGS_UCS2_FONT => Some(Head::Texts(u16_at(body, 1)?, &body[3..])),
        DUPLICATE => Some(Head::Duplicate(u16_at(body, 0)?, &body[2..])),
        SKIP2 => Some(Head::Skip(u16_at(body, 0)?, &body[2..])),
        SKIP1 => Some(Head::Skip(u16::from(*body.first()?), &body[1..])),
        EXT1 => extension_head(3, usize::from(*body.get(1)?), bytes),
        EXT2 => extension_head(4, usize::from(u16_at(body, 1)?), bytes),
        EXT4 => extension_head(6, u32_at(body, 1)? as usize, bytes),
        _ => None,
    }
}

/// What stands at the front of the bytes of blocks, before its texts are split.
pub(crate) fn head_at(bytes: &[u8]) -> Head<'_>
    ensures head { head_seen result ≡ front_of bytes.now }
    ensures inside { HasBehind result (EndsWith bytes.now) }
    ensures shorter { HasBehind result (λ rest. length rest < length bytes.now) }
{
    known_head(bytes).unwrap_or(Head::BadBlock)
}

/// What stands at the front of the bytes of blocks.
pub(crate) fn front_at(bytes: &[u8]) -> Front<'_>
    ensures front { front_seen result ≡ front_of bytes.now }
    ensures inside { LiesIn result bytes.now }
    ensures shorter { LeavesLess result (length bytes.now) }
{
    match head_at(bytes) {
        Head::End => Front::End,
        Head::Texts(count, texts) => texts_front(count, texts),
        Head::Duplicate(id, behind) => Front::Whole(Block::Duplicate(id), behind),
        Head::Skip(count, behind) => Front::Whole(Block::Skip(count), behind),
        Head::Extension(behind) => Front::Whole(Block::Extension, behind),
        Head::BadBlock => Front::BadBlock,
    }
}

/// The whole block at the front of the bytes, if one stands there, and the bytes behind it.
pub(crate) fn split_block(bytes: &[u8]) -> Option<(Block<'_>, &[u8])>
    ensures { MatchOption result (Stops (front_of bytes.now))
        (λ b. SplitsInto bytes.now b.0 b.1.now) }
{
    match front_at(bytes) {
        Front::Whole(block, rest) => Some((block, rest)),
        Front::End | Front::CutText | Front::BadBlock => None,
    }
}

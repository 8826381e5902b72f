//! The text behind a header, block by block.

ghost use Rattle.std.specs.Prelude.{◌≡◌, ◌<◌, ◌≤◌, ◌&&◌, ◌∷◌, [], ℕ, true, Ok, Err, IfOk, IfErr, IfSome, OnOk, MatchResult, length};
ghost use Rattle.config_text.specs.code.PartReading.{fits_width, are_hex, offset_in, width_in};
ghost use Rattle.config_text.specs.code.Reading.{wants_offset, wants_width, wants_value, areas_in, areas_before, then_areas, width_step};
ghost use Rattle.config_text.specs.code.Elements.{parts_behind, areas_behind, are_elements};
ghost use Rattle.config_text.specs.code.Views.{block_view};
ghost use Rattle.config_text.specs.declared.kind.TextKind.{TextKind};
ghost use Rattle.config_text.specs.declared.kind.TextKind.TheVariants.{Tell};

use crate::block::Block;
use crate::groups::are_hex;
use crate::kind::TextKind;
use crate::parts::split_next;
use hii_bytes::{Cause, number_of_digits};

// The most digits of an offset or a width.
const MOST_DIGITS: usize = 8;

// Whether the text is blocks, whole and one behind the other.
pub(crate) fn check_elements(kind: TextKind, text: &[u8]) -> Result<(), Cause>
    ensures whole { OnOk result (are_elements kind text.now ≡ true) }
    ensures bad { IfErr result (λ cause. areas_behind kind text.now ≡ Err cause) }
{
    let mut rest = text;
    while !rest.is_empty() {
        let (_, behind) = split_block(kind, rest)?;
        rest = behind;
    }
    Ok(())
}

// The first block of a text that is not empty, and the rest from the `&` behind it on.
pub(crate) fn split_block<'a>(
    kind: TextKind,
    text: &'a [u8],
) -> Result<(Block<'a>, &'a [u8]), Cause>
    requires { 0 < length text.now }
    ensures read { MatchResult result
        (λ found. areas_behind kind text.now ≡ areas_before (block_view found.0 ∷ []) (areas_behind kind found.1.now))
        (λ cause. areas_behind kind text.now ≡ Err cause) }
    ensures fewer { IfOk result (λ found. length found.1.now < length text.now) }
{
    let (offset, rest) = split_offset(text)?;
    let (width, rest) = split_width(rest)?;
    let (digits, rest) = match kind {
        TextKind::Ask => (&[][..], rest),
        TextKind::Tell => split_value(rest, width)?,
    };
    Ok((
        Block {
            offset,
            width,
            digits,
        },
        rest,
    ))
}

// The offset at the front of a text that is not empty, and the rest.
fn split_offset(text: &[u8]) -> Result<(u16, &[u8]), Cause>
    requires { 0 < length text.now }
    ensures read { (kind : TextKind) → MatchResult result
        (λ found. areas_in kind wants_offset (parts_behind text.now) ≡ areas_in kind (wants_width found.0) (parts_behind found.1.now))
        (λ cause. areas_in kind wants_offset (parts_behind text.now) ≡ Err cause) }
    ensures fewer { IfOk result (λ found. length found.1.now < length text.now) }
{
    let Some((body, rest)) = split_next(text, b"OFFSET=") else {
        return Err(Cause::BadElement);
    };
    let offset = offset_of(body).ok_or(Cause::BadNumber)?;
    Ok((offset, rest))
}

// The width that is wanted at the front, and the rest.
fn split_width(text: &[u8]) -> Result<(u16, &[u8]), Cause>
    ensures read { (kind : TextKind) (offset : ℕ) → MatchResult result
        (λ found. areas_in kind (wants_width offset) (parts_behind text.now)
        ≡ then_areas (Ok (width_step kind offset found.0)) (λ next. areas_in kind next (parts_behind found.1.now)))
        (λ cause. areas_in kind (wants_width offset) (parts_behind text.now) ≡ Err cause) }
    ensures some { IfOk result (λ found. 1 ≤ found.0) }
    ensures fewer { IfOk result (λ found. length found.1.now < length text.now) }
{
    let Some((body, rest)) = split_next(text, b"WIDTH=") else {
        return Err(Cause::BadElement);
    };
    let width = width_of(body).ok_or(Cause::BadNumber)?;
    Ok((width, rest))
}

// The digits of a value of a width that are wanted at the front, and the rest.
fn split_value(text: &[u8], width: u16) -> Result<(&[u8], &[u8]), Cause>
    ensures read { (offset : ℕ) → MatchResult result
        (λ found. areas_in Tell (wants_value offset width) (parts_behind text.now)
        ≡ areas_before (record { offset = offset; width = width; digits = found.0.now } ∷ [])
        (areas_in Tell wants_offset (parts_behind found.1.now)))
        (λ cause. areas_in Tell (wants_value offset width) (parts_behind text.now) ≡ Err cause) }
    ensures value { IfOk result (λ found. are_hex found.0.now && fits_width width found.0.now ≡ true) }
    ensures fewer { IfOk result (λ found. length found.1.now < length text.now) }
{
    let Some((body, rest)) = split_next(text, b"VALUE=") else {
        return Err(Cause::BadElement);
    };
    if body.is_empty() || !are_hex(body) {
        return Err(Cause::BadNumber);
    }
    if !fits_width(width, body) {
        return Err(Cause::ValueWidth);
    }
    Ok((body, rest))
}

fn offset_of(text: &[u8]) -> Option<u16>
    ensures { result ≡ offset_in text.now }
{
    let number = number_of_digits(text, 16, MOST_DIGITS)?;
    u16::try_from(number).ok()
}

fn width_of(text: &[u8]) -> Option<u16>
    ensures value { result ≡ width_in text.now }
    ensures some { IfSome result (λ width. 1 ≤ width) }
{
    let width = offset_of(text)?;
    if width == 0 {
        return None;
    }
    Some(width)
}

// Whether the digits before the last `2 * width` are all 0.
fn fits_width(width: u16, digits: &[u8]) -> bool
    ensures { result ≡ fits_width width digits.now }
{
    let higher = digits.len().saturating_sub(2 * width as usize);
    digits[..higher].iter().all(|digit| *digit == b'0')
}

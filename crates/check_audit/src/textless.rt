//! String ids that are named and have no text.

ghost use Rattle.std.specs.Prelude.{◌≡◌, ◌++◌, ◌≤◌, [], OnOk, drop, length};
ghost use Rattle.std.specs.List.{cons_option, filter_map};
ghost use Rattle.ifr_nodes.specs.Accepted.{IsAccepted};
ghost use Rattle.opcode_audit.specs.Facts.{string_ids};
ghost use Rattle.check_audit.specs.Warnings as spec;
ghost use Rattle.check_audit.specs.Warnings.{textless_at, textless_warnings};
ghost use Rattle.check_audit.specs.code.Naming.{AddsFirsts};

use crate::warning::{Oddity, Warning};
use hii_bytes::NumberSet;
use opcode_audit::{FirstStrings, split_front, string_ids};
use std::alloc::{AllocError, Global};

/// How many bytes the header of a package has.
pub(crate) const HEADER: usize = 4;

// Whether a string id has no text.
fn is_textless(strings: &FirstStrings<'_>, id: u16) -> bool
    ensures { result ≡ spec.is_textless strings.now id }
{
    id != 0 && strings.text(id).is_none()
}

// Adds a string id that an opcode at a place names, if it has no text and was not added before.
fn add_id(
    strings: &FirstStrings<'_>,
    place: u32,
    id: u16,
    named: &mut NumberSet,
    warnings: &mut Vec<Warning>,
) -> Result<(), AllocError>
    ensures { OnOk result (AddsFirsts named.old named.new warnings.old.items warnings.new.items
        (cons_option (textless_at strings.now place id) [])) }
{
    if is_textless(strings, id) && named.insert(id) {
        warnings.push(Warning {
            place,
            oddity: Oddity::Text(id),
        })?;
    }
    Ok(())
}

// Adds those that an opcode at a place names.
fn add_of_opcode(
    strings: &FirstStrings<'_>,
    place: u32,
    opcode: &[u8],
    named: &mut NumberSet,
    warnings: &mut Vec<Warning>,
) -> Result<(), AllocError>
    requires { 2 ≤ length opcode.now }
    ensures { OnOk result (AddsFirsts named.old named.new warnings.old.items warnings.new.items
        (filter_map (textless_at strings.now place) (string_ids opcode.now))) }
{
    let ids = string_ids(opcode);
    for id in ids.as_slice() {
        add_id(strings, place, *id, named, warnings)?;
    }
    Ok(())
}

// What stands behind the header of a package.
fn behind_header(bytes: &[u8]) -> &[u8]
    ensures { result.now ≡ drop 4 bytes.entry.now }
{
    match bytes.get(HEADER..) {
        Some(rest) => rest,
        None => &[],
    }
}

/// Adds the string ids that opcodes of a package name and that have no text, each at the first opcode that names it.
pub(crate) fn add_textless(
    alloc: Global,
    strings: &FirstStrings<'_>,
    ifr: &[u8],
    warnings: &mut Vec<Warning>,
) -> Result<(), AllocError>
    requires { IsAccepted ifr.now }
    ensures { OnOk result (warnings.new.items
        ≡ warnings.old.items ++ textless_warnings strings.now ifr.now) }
{
    let mut named = NumberSet::new(alloc)?;
    let mut rest = behind_header(ifr);
    let mut place = HEADER as u32;
    while let Some((opcode, behind)) = split_front(rest) {
        add_of_opcode(strings, place, opcode, &mut named, warnings)?;
        place += opcode.len() as u32;
        rest = behind;
    }
    Ok(())
}

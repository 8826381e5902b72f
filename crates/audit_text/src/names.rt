//! Names of stores, of their attributes and of opcodes.

ghost use Rattle.std.specs.Prelude.{◌≡◌};
ghost use Rattle.hii_bytes.specs.Watching.{Puts};
ghost use Rattle.audit_text.specs.Texts.{ascii_name, language_name, name_by, shown_byte};
ghost use Rattle.audit_text.specs.code.Names.{shown_in, word_in};
ghost use Rattle.audit_text.specs.Words as spec;

use crate::opcode_names::OPCODE_NAMES;
use hii_bytes::{Watched, first_place};
use std::io::Write;

/// What a name is of.
#[derive(Clone, Copy)]
pub(crate) enum Named {
    /// A store.
    Store,
    /// A language, beside which others stand.
    Language,
}

impl Named {
    // The byte that shows for one of a name.
    fn shown(self, byte: u8) -> u8
        ensures { result ≡ shown_in self byte }
    {
        match self {
            Named::Language if byte == b' ' || byte == b',' => b'?',
            _ => shown_byte(byte),
        }
    }
}

/// The byte that shows for one of the name of a store.
pub fn shown_byte(byte: u8) -> u8
    ensures { result ≡ shown_byte byte }
{
    if 0x20 <= byte && byte <= 0x7e {
        byte
    } else {
        b'?'
    }
}

// Writes a name.
fn put_name<W: Write>(out: &mut Watched<W>, name: &[u8], named: Named)
    ensures { Puts W.contents out.old out.new (name_by (shown_in named) name.now) }
{
    if name.is_empty() {
        out.put(b"-");
        return;
    }
    let mut rest = name;
    while let [byte, behind @ ..] = rest {
        out.put(&[named.shown(*byte)]);
        rest = behind;
    }
}

/// Writes the name of a store: a byte outside 0x20 to 0x7E shows as `?`, an empty name as `-`.
pub fn put_ascii_name<W: Write>(out: &mut Watched<W>, name: &[u8])
    ensures { Puts W.contents out.old out.new (ascii_name name.now) }
{
    put_name(out, name, Named::Store);
}

/// Writes the name of a language: a byte outside 0x21 to 0x7E and a comma show as `?`, an empty name as `-`.
pub fn put_language<W: Write>(out: &mut Watched<W>, language: &[u8])
    ensures { Puts W.contents out.old out.new (language_name language.now) }
{
    put_name(out, language, Named::Language);
}

/// The name of an opcode by its number, and no bytes for a number without a name (UEFI 2.8, 33.3.8.3 Opcode Reference, without
/// `EFI_IFR_` and `_OP`).
pub fn opcode_name(code: u8) -> &'static [u8]
    ensures { result.now ≡ spec.opcode_name code }
{
    match OPCODE_NAMES.get(usize::from(code)) {
        Some(padded) => unpadded(padded),
        None => b"",
    }
}

// A word without the spaces with which it is filled up in a table.
fn unpadded(padded: &[u8]) -> &[u8]
    ensures { result.now ≡ word_in padded.now }
{
    match first_place(padded, b' ') {
        Some(end) => &padded[..end],
        None => padded,
    }
}

/// The attributes of a variable (UEFI 2.8, 8.2 Variable Services, GetVariable): `NV` for 1 (NON_VOLATILE), `BS` for 2
/// (BOOTSERVICE_ACCESS) and `RT` for 4 (RUNTIME_ACCESS), joined by `+`, or `-` for none of these.
pub fn attributes_text(attributes: u32) -> &'static [u8]
    ensures { result.now ≡ spec.attributes_text attributes }
{
    let bits = (
        attributes & 1 != 0,
        attributes & 2 != 0,
        attributes & 4 != 0,
    );
    match bits {
        (false, false, false) => b"-",
        (true, false, false) => b"NV",
        (false, true, false) => b"BS",
        (true, true, false) => b"NV+BS",
        (false, false, true) => b"RT",
        (true, false, true) => b"NV+RT",
        (false, true, true) => b"BS+RT",
        (true, true, true) => b"NV+BS+RT",
    }
}

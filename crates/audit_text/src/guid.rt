//! GUIDs in hex digits.

ghost use Rattle.std.specs.Prelude.{◌≡◌, ◌+◌, ◌*◌, ◌<◌, ◌≤◌, ◌++◌, length};
ghost use Rattle.std.specs.Fmt.{digit_glyph};
ghost use Rattle.std.specs.List.{flat_map};
ghost use Rattle.arrayvec.specs.ArrayVec.{array_vec_len};
ghost use Rattle.hii_bytes.specs.Watching.{Puts};
ghost use Rattle.audit_text.specs.Texts.{byte_digits, guid_text};
ghost use Rattle.audit_text.specs.code.Cases.{is_upper};

use arrayvec::ArrayVec;
use hii_bytes::{Guid, Watched};
use std::io::Write;

/// How the hex digits above 9 are written.
#[derive(Clone, Copy, PartialEq, Eq)]
pub enum Case {
    /// As `A` to `F`.
    Upper,
    /// As `a` to `f`.
    Lower,
}

/// The hex digit of a number below 16.
pub(crate) fn digit_of(value: u8, case: Case) -> u8
    requires { value < 16 }
    ensures { result ≡ digit_glyph (is_upper case) value }
{
    if value < 10 {
        return b'0' + value;
    }
    match case {
        Case::Upper => b'A' + (value - 10),
        Case::Lower => b'a' + (value - 10),
    }
}

// Adds two digits for each byte.
fn push_digits(text: &mut ArrayVec<u8, 36>, bytes: &[u8], case: Case)
    requires { array_vec_len text.old + 2 * length bytes.now ≤ 36 }
    ensures items { text.new.items
        ≡ text.old.items ++ flat_map (byte_digits (is_upper case)) bytes.now }
    ensures count { array_vec_len text.new ≡ array_vec_len text.old + 2 * length bytes.now }
{
    let mut rest = bytes;
    while let [byte, behind @ ..] = rest {
        text.push(digit_of(*byte / 16, case));
        text.push(digit_of(*byte % 16, case));
        rest = behind;
    }
}

/// The 36 characters of a GUID in registry format (UEFI 2.8, Appendix A GUID and Time Formats): the numbers of 4, 2 and 2 bytes,
/// which lie with the lowest byte first, then 2 and 6 bytes in their order, with hyphens between.
pub fn guid_digits(guid: Guid<'_>, case: Case) -> ArrayVec<u8, 36>
    ensures { result.items ≡ guid_text (is_upper case) guid.entry.bytes.now }
{
    let bytes = guid.bytes();
    let mut text = ArrayVec::new();
    push_digits(&mut text, &[bytes[3], bytes[2], bytes[1], bytes[0]], case);
    text.push(b'-');
    push_digits(&mut text, &[bytes[5], bytes[4]], case);
    text.push(b'-');
    push_digits(&mut text, &[bytes[7], bytes[6]], case);
    text.push(b'-');
    push_digits(&mut text, &bytes[8..10], case);
    text.push(b'-');
    push_digits(&mut text, &bytes[10..], case);
    text
}

/// Writes the 36 characters of a GUID.
pub fn put_guid<W: Write>(out: &mut Watched<W>, guid: Guid<'_>, case: Case)
    ensures { Puts W.contents out.old out.new (guid_text (is_upper case) guid.entry.bytes.now) }
{
    out.put(guid_digits(guid, case).as_slice());
}

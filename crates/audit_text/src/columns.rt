//! Texts of a fixed width.

ghost use Rattle.std.specs.Prelude.{◌≡◌, ◌≤◌, ◌+◌, length};
ghost use Rattle.hii_bytes.specs.Watching.{Puts};
ghost use Rattle.audit_text.specs.Texts.{hex_text, left_aligned};

use crate::guid::{Case, digit_of};
use hii_bytes::Watched;
use std::io::Write;

/// Writes a text and as many spaces as make it `width` bytes long, none where it is longer.
pub fn put_left<W: Write>(out: &mut Watched<W>, width: usize, text: &[u8])
    ensures { Puts W.contents out.old out.new (left_aligned width text.now) }
{
    out.put(text);
    out.put_spaces(width.saturating_sub(text.len()));
}

/// Writes a number in lower-case hex digits, without zeros before it, and tells how many these are.
pub fn put_hexadecimal<W: Write>(out: &mut Watched<W>, number: u64) -> usize
    ensures text { Puts W.contents out.old out.new (hex_text number) }
    ensures count { result ≡ length (hex_text number) }
    ensures few { result ≤ number + 1 }
{
    let digit = digit_of((number % 16) as u8, Case::Lower);
    if number < 16 {
        out.put(&[digit]);
        return 1;
    }
    let before = put_hexadecimal(out, number / 16);
    out.put(&[digit]);
    before + 1
}

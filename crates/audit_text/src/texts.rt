//! Texts that a list or a command line gives, as they stand in a line.

ghost use Rattle.std.specs.Prelude.{◌≡◌, chars};
ghost use Rattle.hii_bytes.specs.Watching.{Puts};
ghost use Rattle.hii_languages.specs.code.Views.{chars_left};
ghost use Rattle.audit_text.specs.Texts.{is_between, is_unsafe, safe_char, safe_text};

use crate::columns::put_hexadecimal;
use hii_bytes::Watched;
use hii_languages::ShownChars;
use std::io::Write;

fn is_between(c: u32, first: u32, last: u32) -> bool
    ensures { result ≡ is_between c (first, last) }
{
    first <= c && c <= last
}

/// Whether a character ends a line, begins an escape, turns the direction of what follows or does not show at all (own rule).
pub fn is_unsafe(c: u32) -> bool
    ensures { result ≡ is_unsafe c }
{
    is_between(c, 0x00, 0x1f)
        || is_between(c, 0x7f, 0x9f)
        || is_between(c, 0xad, 0xad)
        || is_between(c, 0x061c, 0x061c)
        || is_between(c, 0x180e, 0x180e)
        || is_between(c, 0x200b, 0x200f)
        || is_between(c, 0x2028, 0x202e)
        || is_between(c, 0x2060, 0x206f)
        || is_between(c, 0xd800, 0xdfff)
        || is_between(c, 0xfeff, 0xfeff)
        || is_between(c, 0xfff9, 0xfffb)
        || is_between(c, 0xe0000, 0xe007f)
}

/// Writes a character in UTF-8, and one that ends a line, begins an escape, turns the direction of what follows or does not show as
/// its number in hex digits: `\u{202e}` (own rule).
pub fn put_safe_char<W: Write>(out: &mut Watched<W>, c: char)
    ensures { Puts W.contents out.old out.new (safe_char c) }
{
    if is_unsafe(u32::from(c)) {
        out.put(b"\\u{");
        put_hexadecimal(out, u64::from(u32::from(c)));
        out.put(b"}");
    } else {
        out.put_char(c);
    }
}

/// Writes a text, each of its characters in this way.
pub fn put_safe_text<W: Write>(out: &mut Watched<W>, text: &str)
    ensures { Puts W.contents out.old out.new (safe_text (chars text.now)) }
{
    for c in text.chars() {
        put_safe_char(out, c);
    }
}

/// Writes a text of a list as it is shown, each of its characters in this way.
pub fn put_safe_shown<W: Write>(text: ShownChars<'_>, out: &mut Watched<W>)
    ensures { Puts W.contents out.old out.new (safe_text (chars_left text.entry)) }
{
    let mut text = text;
    while let Some(c) = text.next() {
        put_safe_char(out, c);
    }
}

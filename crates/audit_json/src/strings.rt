//! Texts as strings of JSON.

ghost use Rattle.std.specs.Prelude.{◌≡◌, ◌<◌, ◌^◌, chars, map};
ghost use Rattle.hii_bytes.specs.Watching.{Puts};
ghost use Rattle.hii_languages.specs.code.Views.{chars_left};
ghost use Rattle.audit_json.specs.Json.{escape, escaped, json_char, json_text, unit_escape};
ghost use Rattle.audit_text.specs.Texts.{ascii_name, shown_byte};

use audit_text::{is_unsafe, shown_byte};
use hii_bytes::Watched;
use hii_languages::ShownChars;
use std::io::Write;

// Writes a unit of UTF-16 as an escape.
fn put_unit_escape<W: Write>(out: &mut Watched<W>, unit: u32)
    requires { unit < 2 ^ 16 }
    ensures { Puts W.contents out.old out.new (unit_escape unit) }
{
    out.put(b"\\u");
    out.put_hex((unit / 256) as u8);
    out.put_hex((unit % 256) as u8);
}

// Writes a character as the escape of its unit of UTF-16, or of its two.
fn put_escape<W: Write>(out: &mut Watched<W>, c: u32)
    requires { c < 0x110000 }
    ensures { Puts W.contents out.old out.new (escape c) }
{
    if c < 0x10000 {
        put_unit_escape(out, c);
        return;
    }
    let behind = c - 0x10000;
    put_unit_escape(out, 0xd800 + behind / 0x400);
    put_unit_escape(out, 0xdc00 + behind % 0x400);
}

/// Writes a character as it stands in a string of JSON.
pub fn put_json_char<W: Write>(out: &mut Watched<W>, c: char)
    ensures { Puts W.contents out.old out.new (json_char c) }
{
    if c == '"' || c == '\\' {
        out.put(b"\\");
        out.put_char(c);
        return;
    }
    if is_unsafe(u32::from(c)) {
        put_escape(out, u32::from(c));
    } else {
        out.put_char(c);
    }
}

/// Writes a text of a list as it is shown as a string of JSON (RFC 8259, 7). Beside a quotation mark and a backslash each character
/// that ends a line, begins an escape, turns the direction of what follows or does not show is escaped (own rule).
pub fn put_json_shown<W: Write>(text: ShownChars<'_>, out: &mut Watched<W>)
    ensures { Puts W.contents out.old out.new (json_text (chars_left text.entry)) }
{
    out.put(b"\"");
    let mut text = text;
    while let Some(c) = text.next() {
        put_json_char(out, c);
    }
    out.put(b"\"");
}

/// Writes bytes, each of which is a character, as a string of JSON in this way.
pub fn put_json_bytes<W: Write>(text: &[u8], out: &mut Watched<W>)
    ensures { Puts W.contents out.old out.new (json_text text.now) }
{
    out.put(b"\"");
    for byte in text {
        put_json_char(out, char::from(*byte));
    }
    out.put(b"\"");
}

/// Writes a text as a string of JSON in this way.
pub fn put_json_str<W: Write>(text: &str, out: &mut Watched<W>)
    ensures { Puts W.contents out.old out.new (json_text (chars text.now)) }
{
    out.put(b"\"");
    put_escaped_str(text, out);
    out.put(b"\"");
}

// Writes a text as it stands within a string of JSON.
fn put_escaped_str<W: Write>(text: &str, out: &mut Watched<W>)
    ensures { Puts W.contents out.old out.new (escaped (chars text.now)) }
{
    for c in text.chars() {
        put_json_char(out, c);
    }
}

/// Writes the name of a store, as it stands in a line, within a string of JSON.
pub fn put_escaped_name<W: Write>(name: &[u8], out: &mut Watched<W>)
    ensures { Puts W.contents out.old out.new (escaped (ascii_name name.now)) }
{
    if name.is_empty() {
        out.put(b"-");
    } else {
        put_escaped_bytes(name, out);
    }
}

// Writes the bytes of the name of a store in this way.
fn put_escaped_bytes<W: Write>(name: &[u8], out: &mut Watched<W>)
    ensures { Puts W.contents out.old out.new (escaped (map shown_byte name.now)) }
{
    for byte in name {
        put_json_char(out, char::from(shown_byte(*byte)));
    }
}

//! Texts as they stand in lines, and in strings of JSON.

ghost use Rattle.std.specs.Prelude.{◌≡◌, take};
ghost use Rattle.bstr.specs.Utf8.{lossy_chars};
ghost use Rattle.hii_bytes.specs.Watching.{Puts};
ghost use Rattle.hii_languages.specs.code.Views.{chars_left};
ghost use Rattle.audit_text.specs.Texts.{ascii_name};
ghost use Rattle.audit_json.specs.Telling.{told_as};
ghost use Rattle.script_audit.specs.Told as spec;
ghost use Rattle.script_audit.specs.Told.{spelled, spelled_char};

use audit_json::{Telling, put_json_char, put_kind, put_member, put_number};
use audit_text::{put_safe_char, shown_byte};
use bstr::ByteSlice;
use hii_bytes::Watched;
use hii_languages::ShownChars;
use std::io::Write;

/// Writes the first of two texts in a line, and the second in an object.
pub(crate) fn put_as<W: Write>(telling: Telling, words: &[u8], object: &[u8], out: &mut Watched<W>)
    ensures { Puts W.contents out.old out.new (told_as telling words.now object.now) }
{
    match telling {
        Telling::Lines => out.put(words),
        Telling::Objects => out.put(object),
    }
}

/// Writes what stands before a text: words of a line, or the kind of an object and the key of the text.
pub(crate) fn put_front<W: Write>(
    telling: Telling,
    words: &[u8],
    kind: &[u8],
    key: &[u8],
    out: &mut Watched<W>,
)
    ensures { Puts W.contents out.old out.new (spec.front telling words.now kind.now key.now) }
{
    match telling {
        Telling::Lines => out.put(words),
        Telling::Objects => {
            put_kind(kind, out);
            put_member(key, out);
            out.put(b"\"");
        }
    }
}

/// Writes the same before a text that belongs to a line of the script.
pub(crate) fn put_numbered_front<W: Write>(
    telling: Telling,
    number: u64,
    kind: &[u8],
    key: &[u8],
    out: &mut Watched<W>,
)
    ensures { Puts W.contents out.old out.new (spec.numbered_front telling number kind.now key.now) }
{
    match telling {
        Telling::Lines => {
            out.put(b"line ");
            out.put_decimal(number);
            out.put(b": ");
        }
        Telling::Objects => {
            put_kind(kind, out);
            put_number(b"line", number, out);
            put_member(key, out);
            out.put(b"\"");
        }
    }
}

/// Writes what stands behind a text.
pub(crate) fn put_back<W: Write>(telling: Telling, out: &mut Watched<W>)
    ensures { Puts W.contents out.old out.new (spec.back telling) }
{
    put_as(telling, b"\n", b"\"}\n", out);
}

/// Writes how a run ends that is refused with a line of its own.
pub(crate) fn put_error<W: Write>(telling: Telling, text: &[u8], out: &mut Watched<W>)
    ensures { Puts W.contents out.old out.new (spec.error_told telling text.now) }
{
    put_front(telling, b"", b"error", b"text", out);
    out.put(text);
    put_back(telling, out);
}

/// Writes a character.
pub(crate) fn put_spelled_char<W: Write>(telling: Telling, c: char, out: &mut Watched<W>)
    ensures { Puts W.contents out.old out.new (spelled_char telling c) }
{
    match telling {
        Telling::Lines => put_safe_char(out, c),
        Telling::Objects => put_json_char(out, c),
    }
}

/// Writes a text of a list as it is shown.
pub(crate) fn put_spelled<W: Write>(telling: Telling, text: ShownChars<'_>, out: &mut Watched<W>)
    ensures { Puts W.contents out.old out.new (spelled telling (chars_left text.entry)) }
{
    let mut text = text;
    while let Some(c) = text.next() {
        put_spelled_char(telling, c, out);
    }
}

/// Writes bytes as UTF-8, of which U+FFFD shows what is none.
pub(crate) fn put_bytes<W: Write>(telling: Telling, bytes: &[u8], out: &mut Watched<W>)
    ensures { Puts W.contents out.old out.new (spelled telling (lossy_chars bytes.now)) }
{
    let mut left = bytes.chars();
    while let Some(c) = left.next() {
        put_spelled_char(telling, c, out);
    }
}

/// Writes the first characters of bytes in this way, at most so many.
pub(crate) fn put_first<W: Write>(telling: Telling, most: usize, bytes: &[u8], out: &mut Watched<W>)
    ensures { Puts W.contents out.old out.new (spelled telling (take most (lossy_chars bytes.now))) }
{
    let mut left = bytes.chars();
    let mut room = most;
    while room > 0 {
        let Some(c) = left.next() else {
            return;
        };
        put_spelled_char(telling, c, out);
        room -= 1;
    }
}

/// Writes the name of a store: a byte outside 0x20 to 0x7E shows as `?`, an empty name as `-`.
pub(crate) fn put_name<W: Write>(telling: Telling, name: &[u8], out: &mut Watched<W>)
    ensures { Puts W.contents out.old out.new (spelled telling (ascii_name name.now)) }
{
    if name.is_empty() {
        out.put(b"-");
        return;
    }
    let mut rest = name;
    while let [byte, behind @ ..] = rest {
        put_spelled_char(telling, char::from(shown_byte(*byte)), out);
        rest = behind;
    }
}

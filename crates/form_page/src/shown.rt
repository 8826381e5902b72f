//! Texts as they are written.

ghost use Rattle.std.specs.Prelude.{◌≡◌, ◌-◌, ◌≤◌};
ghost use Rattle.hii_bytes.specs.Watching.{pen_of, Puts};
ghost use Rattle.browser_rules.specs.Strings.{characters};
ghost use Rattle.sibt_strings.specs.code.Views.{units_in};
ghost use Rattle.hii_languages.specs.code.Views.{chars_left, text_of};
ghost use Rattle.form_page.specs.code.Lines.{Adds};
ghost use Rattle.form_page.specs.Texts.{columns, utf8, cut_to, width, in_columns};

use crate::line::Line;
use crate::plain::copy_plain;
use hii_bytes::Watched;
use hii_languages::{Shown, ShownChars};
use sibt_strings::Units;
use std::io::Write;
use unicode_width::UnicodeWidthChar;

/// How many columns a prompt has.
const COLUMNS: usize = 24;

/// How many characters of ASCII at the front of a text are added together, at most.
const FRONT: usize = 64;

// How many columns a character takes.
fn columns_of(c: char) -> usize
    ensures value { result ≡ columns c }
{
    c.width().unwrap_or(0)
}

// Adds the longest front of whole characters that is at most this many columns wide, and answers how many columns are left.
fn put_cut<W: Write>(
    text: ShownChars<'_>,
    room: usize,
    line: &mut Line,
    out: &mut Watched<W>,
) -> usize
    ensures left { result ≡ room - width (cut_to room (chars_left text.entry)) }
    ensures text { Adds (pen_of W.contents out.old) line.old (pen_of W.contents out.new) line.new
        (utf8 (cut_to room (chars_left text.entry))) }
{
    let mut text = text;
    let mut room = room;
    while let Some(c) = text.next() {
        let wide = columns_of(c);
        if wide > room {
            return room;
        }
        line.put_char(c, out);
        room -= wide;
    }
    room
}

// Adds characters in so many columns: cut, and filled with spaces.
fn put_chars_in_columns<W: Write>(
    text: ShownChars<'_>,
    count: usize,
    line: &mut Line,
    out: &mut Watched<W>,
)
    requires { count ≤ 24 }
    ensures { Adds (pen_of W.contents out.old) line.old (pen_of W.contents out.new) line.new
        (in_columns count (chars_left text.entry)) }
{
    let room = put_cut(text, count, line, out);
    line.put_spaces(room, out);
}

// Adds the characters of units in the columns of a prompt: cut, and filled with spaces.
fn put_units_in_columns<W: Write>(text: Units<'_>, line: &mut Line, out: &mut Watched<W>)
    ensures { Adds (pen_of W.contents out.old) line.old (pen_of W.contents out.new) line.new
        (in_columns 24 (characters (units_in text.entry))) }
{
    let mut columns = [b' '; COLUMNS];
    let (count, rest) = copy_plain(text, &mut columns);
    if rest.bytes.is_empty() {
        line.put(&columns, out);
        return;
    }
    line.put(&columns[..count], out);
    put_chars_in_columns(Shown::Units(rest).chars(), COLUMNS - count, line, out);
}

/// Adds a text in the columns of a prompt: cut, and filled with spaces.
pub(crate) fn put_in_columns<W: Write>(text: Shown<'_>, line: &mut Line, out: &mut Watched<W>)
    ensures { Adds (pen_of W.contents out.old) line.old (pen_of W.contents out.new) line.new
        (in_columns 24 (text_of text.entry)) }
{
    match text {
        Shown::Units(units) => put_units_in_columns(units, line, out),
        _ => put_chars_in_columns(text.chars(), COLUMNS, line, out),
    }
}

// Adds characters whole, in UTF-8.
fn put_chars<W: Write>(text: ShownChars<'_>, line: &mut Line, out: &mut Watched<W>)
    ensures { Adds (pen_of W.contents out.old) line.old (pen_of W.contents out.new) line.new
        (utf8 (chars_left text.entry)) }
{
    let mut text = text;
    while let Some(c) = text.next() {
        line.put_char(c, out);
    }
}

/// Adds the characters of units whole, in UTF-8.
pub(crate) fn put_units<W: Write>(text: Units<'_>, line: &mut Line, out: &mut Watched<W>)
    ensures { Adds (pen_of W.contents out.old) line.old (pen_of W.contents out.new) line.new
        (utf8 (characters (units_in text.entry))) }
{
    let mut front = [0; FRONT];
    let (count, rest) = copy_plain(text, &mut front);
    line.put(&front[..count], out);
    put_chars(Shown::Units(rest).chars(), line, out);
}

/// Adds a text whole, in UTF-8.
pub(crate) fn put_text<W: Write>(text: Shown<'_>, line: &mut Line, out: &mut Watched<W>)
    ensures { Adds (pen_of W.contents out.old) line.old (pen_of W.contents out.new) line.new
        (utf8 (text_of text.entry)) }
{
    match text {
        Shown::Units(units) => put_units(units, line, out),
        _ => put_chars(text.chars(), line, out),
    }
}

/// Writes a text whole, in UTF-8.
pub fn put_shown<W: Write>(text: ShownChars<'_>, out: &mut Watched<W>)
    ensures { Puts W.contents out.old out.new (utf8 (chars_left text.entry)) }
{
    let mut line = Line::new();
    put_chars(text, &mut line, out);
    line.end(out);
}

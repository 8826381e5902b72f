//! Texts in a page.

ghost use Rattle.hii_bytes.specs.Watching.{Puts};
ghost use Rattle.hii_languages.specs.code.Views.{chars_left, text_of};
ghost use Rattle.audit_html.specs.Html.{html_char, html_text, isolated, title_text};

use audit_text::put_safe_char;
use hii_bytes::Watched;
use hii_languages::{Shown, ShownChars};
use std::io::Write;

/// Writes a character as it stands in a text or an attribute of a page (HTML, 13.1.4 Character references): none begins a tag or a
/// reference or ends an attribute. One that ends a line, begins an escape, turns the direction of what follows or does not show is
/// its number in hex digits: `\u{202e}` (own rule).
pub fn put_html_char<W: Write>(c: char, out: &mut Watched<W>)
    ensures { Puts W.contents out.old out.new (html_char c) }
{
    match c {
        '&' => out.put(b"&amp;"),
        '<' => out.put(b"&lt;"),
        '>' => out.put(b"&gt;"),
        '"' => out.put(b"&quot;"),
        '\'' => out.put(b"&#x27;"),
        _ => put_safe_char(out, c),
    }
}

/// Writes a text of a list as it is shown, each of its characters in this way.
pub fn put_html_shown<W: Write>(text: ShownChars<'_>, out: &mut Watched<W>)
    ensures { Puts W.contents out.old out.new (html_text (chars_left text.entry)) }
{
    let mut text = text;
    while let Some(c) = text.next() {
        put_html_char(c, out);
    }
}

/// Writes bytes, each of which is a character, in this way.
pub fn put_html_bytes<W: Write>(text: &[u8], out: &mut Watched<W>)
    ensures { Puts W.contents out.old out.new (html_text text.now) }
{
    for byte in text {
        put_html_char(char::from(*byte), out);
    }
}

/// Writes a text of a list as an element that keeps its direction to itself (HTML, 4.5.24 The bdi element).
pub fn put_isolated_shown<W: Write>(text: ShownChars<'_>, out: &mut Watched<W>)
    ensures { Puts W.contents out.old out.new (isolated (chars_left text.entry)) }
{
    out.put(b"<bdi>");
    put_html_shown(text, out);
    out.put(b"</bdi>");
}

/// Writes bytes, each of which is a character, as such an element.
pub fn put_isolated_bytes<W: Write>(text: &[u8], out: &mut Watched<W>)
    ensures { Puts W.contents out.old out.new (isolated text.now) }
{
    out.put(b"<bdi>");
    put_html_bytes(text, out);
    out.put(b"</bdi>");
}

/// Writes the title of a form as such an element, or words that it has none.
pub fn put_title<W: Write>(title: Shown<'_>, out: &mut Watched<W>)
    ensures { Puts W.contents out.old out.new (title_text (text_of title.entry)) }
{
    if title.chars().next().is_some() {
        put_isolated_shown(title.chars(), out);
    } else {
        put_isolated_bytes(b"(no title)", out);
    }
}

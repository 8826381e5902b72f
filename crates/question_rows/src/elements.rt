//! Elements of rows.

ghost use Rattle.std.specs.Prelude.{if◌then◌else◌};
ghost use Rattle.hii_bytes.specs.Watching.{Puts};
ghost use Rattle.question_rows.specs.Elements.{end_of, html_byte, html_line, isolated_line};

use audit_html::put_html_char;
use hii_bytes::Watched;
use std::io::Write;

/// Writes a byte of a text that stands in lines, too: one of ASCII as its character stands in a page.
pub(crate) fn put_html_byte<W: Write>(byte: u8, out: &mut Watched<W>)
    ensures { Puts W.contents out.old out.new (html_byte byte) }
{
    if byte < 0x80 {
        put_html_char(char::from(byte), out);
    } else {
        out.put(&[byte]);
    }
}

/// Writes such a text.
pub(crate) fn put_html_line<W: Write>(line: &[u8], out: &mut Watched<W>)
    ensures { Puts W.contents out.old out.new (html_line line.now) }
{
    for byte in line {
        put_html_byte(*byte, out);
    }
}

/// Writes such a text as an element that keeps its direction to itself.
pub(crate) fn put_isolated_line<W: Write>(line: &[u8], out: &mut Watched<W>)
    ensures { Puts W.contents out.old out.new (isolated_line line.now) }
{
    out.put(b"<bdi>");
    put_html_line(line, out);
    out.put(b"</bdi>");
}

/// Writes what stands before an item of some that stand one behind the other.
pub(crate) fn put_before_item<W: Write>(
    start: &[u8],
    between: &[u8],
    is_first: bool,
    out: &mut Watched<W>,
)
    ensures { Puts W.contents out.old out.new
        (if is_first then start.now else between.now) }
{
    out.put(if is_first { start } else { between });
}

/// Writes what stands behind the last item, where there is one.
pub(crate) fn put_end<W: Write>(end: &[u8], is_none: bool, out: &mut Watched<W>)
    ensures { Puts W.contents out.old out.new (end_of end.now is_none) }
{
    if !is_none {
        out.put(end);
    }
}

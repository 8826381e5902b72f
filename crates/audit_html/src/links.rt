//! Links within a page.

ghost use Rattle.hii_bytes.specs.Watching.{Puts};
ghost use Rattle.audit_html.specs.Html.{link_to};

use audit_text::put_hexadecimal;
use hii_bytes::Watched;
use std::io::Write;

/// Begins a link to the element that a prefix and a place in hex digits name.
pub fn put_link<W: Write>(prefix: &[u8], place: u32, out: &mut Watched<W>)
    ensures { Puts W.contents out.old out.new (link_to prefix.now place) }
{
    out.put(b"<a href=\"#");
    out.put(prefix);
    put_hexadecimal(out, u64::from(place));
    out.put(b"\">");
}

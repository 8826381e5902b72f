//! Where bytes lie.

ghost use Rattle.hii_bytes.specs.Watching.{Puts};
ghost use Rattle.ifr_nodes.specs.Nodes.{nodes_of};
ghost use Rattle.question_audit.specs.QuestionLines.{field_text};

use audit_text::{put_ascii_name, put_hexadecimal};
use hii_bytes::Watched;
use question_audit::StoreNames;
use std::io::Write;

/// Writes where bytes of a store lie, as NAME:0xOFFSET(WIDTH).
pub(crate) fn put_range<W: Write>(
    names: &StoreNames<'_>,
    store: u16,
    offset: usize,
    width: usize,
    out: &mut Watched<W>,
)
    ensures { Puts W.contents out.old out.new (field_text (nodes_of names.now) record {
      store = store;
      offset = offset;
      width = width;
    }) }
{
    put_ascii_name(out, names.name(store));
    out.put(b":0x");
    put_hexadecimal(out, offset as u64);
    out.put(b"(");
    out.put_decimal(width as u64);
    out.put(b")");
}

//! What a command says of its own.

ghost use Rattle.hii_bytes.specs.Watching.{Puts};
ghost use Rattle.store_commands.specs.Saying.{before_words, behind_words, no_store_told};

use audit_json::{Telling, end_object, put_kind, put_member};
use hii_bytes::Watched;
use std::io::Write;

/// Begins what is said, up to its words.
pub(crate) fn put_said<W: Write>(telling: Telling, out: &mut Watched<W>)
    ensures { Puts W.contents out.old out.new (before_words telling) }
{
    match telling {
        Telling::Lines => {}
        Telling::Objects => {
            put_kind(b"error", out);
            put_member(b"text", out);
            out.put(b"\"");
        }
    }
}

/// Ends it behind its words.
pub(crate) fn end_said<W: Write>(telling: Telling, out: &mut Watched<W>)
    ensures { Puts W.contents out.old out.new (behind_words telling) }
{
    match telling {
        Telling::Lines => out.put(b"\n"),
        Telling::Objects => {
            out.put(b"\"");
            end_object(out);
        }
    }
}

/// Tells that no store of an id holds bytes.
pub(crate) fn put_no_store<W: Write>(telling: Telling, id: u16, out: &mut Watched<W>)
    ensures { Puts W.contents out.old out.new (no_store_told telling id) }
{
    put_said(telling, out);
    out.put(b"no store ");
    out.put_decimal(u64::from(id));
    end_said(telling, out);
}

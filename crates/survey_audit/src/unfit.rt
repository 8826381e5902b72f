//! Stores that are not given what they hold.

ghost use Rattle.hii_bytes.specs.Watching.{Puts};
ghost use Rattle.store_audit.specs.code.Fillings.{filling_node};
ghost use Rattle.survey_audit.specs.Lines.{unfit_line, unfit_object, unfit_told};
ghost use Rattle.survey_audit.specs.code.Headings.{heading_of};

use crate::heading::{Heading, put_head, put_head_members};
use audit_json::{Telling, end_object, put_kind, put_member};
use hii_bytes::Watched;
use std::io::Write;
use store_audit::{Filling, put_unfit_line, put_unfit_string};

/// Tells that a store of a forms package is given no bytes, or not as many as it holds.
pub fn put_unfit<W: Write>(heading: Heading<'_, '_>, filling: &Filling<'_>, out: &mut Watched<W>)
    ensures { Puts W.contents out.old out.new
        (unfit_told (heading_of heading.entry) (filling_node filling.now) filling.now.source) }
{
    match heading.telling {
        Telling::Lines => put_line(heading, filling, out),
        Telling::Objects => put_object(heading, filling, out),
    }
}

// Writes the line.
fn put_line<W: Write>(heading: Heading<'_, '_>, filling: &Filling<'_>, out: &mut Watched<W>)
    ensures { Puts W.contents out.old out.new
        (unfit_line (heading_of heading.entry) (filling_node filling.now) filling.now.source) }
{
    put_head(heading, out);
    put_unfit_line(filling, out);
}

// Writes the object.
fn put_object<W: Write>(heading: Heading<'_, '_>, filling: &Filling<'_>, out: &mut Watched<W>)
    ensures { Puts W.contents out.old out.new
        (unfit_object (heading_of heading.entry) (filling_node filling.now) filling.now.source) }
{
    put_kind(b"set", out);
    put_head_members(heading, out);
    put_member(b"reason", out);
    put_unfit_string(filling, out);
    end_object(out);
}

//! The objects of a dump.

ghost use Rattle.std.specs.Prelude.{◌≡◌, List, length};
ghost use Rattle.std.specs.List.{concat};
ghost use Rattle.browser_rules.specs.Strings.{Spoken};
ghost use Rattle.hii_bytes.specs.Watching.{Puts};
ghost use Rattle.hii_dumps.specs.code.Lists.{entry_of};
ghost use Rattle.hii_packages.specs.Packages.{packages_of};
ghost use Rattle.dump_audit.specs.Findings.{Finding};
ghost use Rattle.dump_audit.specs.Objects.{contents_members, finding_members, head_members, no_list_object, rest_object};
ghost use Rattle.dump_audit.specs.code.Heard.{heard_of};
ghost use Rattle.dump_audit.specs.code.Found.{IsOf};

use crate::contents::{first_title, forms_count, put_guids_member};
use crate::findings::Contents;
use audit_json::{end_object, put_fault_member, put_kind, put_member, put_number, put_shown};
use hii_bytes::{Fault, Watched};
use hii_dumps::{Dump, DumpedList};
use std::io::Write;

/// Writes the members that tell which list an object is of: its number, its place and its length.
pub(crate) fn put_head_members<W: Write>(number: u64, list: DumpedList<'_>, out: &mut Watched<W>)
    ensures { Puts W.contents out.old out.new (head_members number (entry_of list.entry)) }
{
    put_number(b"number", number, out);
    put_number(b"at", list.place, out);
    put_number(b"size", list.bytes.len() as u64, out);
}

// Writes the members that tell what the packages of a list are.
fn put_contents_members<W: Write>(contents: &Contents<'_>, out: &mut Watched<W>)
    ensures { (spoken : List Spoken) → contents.now.strings ≡ heard_of spoken
        → Puts W.contents out.old out.new (contents_members (packages_of contents.now.packages) spoken) }
{
    put_number(b"forms", forms_count(&contents.packages), out);
    put_guids_member(&contents.packages, out);
    contents.strings.put_languages_member(out);
    if let Some(id) = first_title(&contents.packages) {
        put_shown(b"title", contents.strings.shown(id).chars(), out);
    }
}

/// Writes the members that tell what is found of a list.
pub(crate) fn put_finding_members<W: Write>(
    found: &Result<Contents<'_>, Fault>,
    out: &mut Watched<W>,
)
    ensures { (finding : Finding) → IsOf found.now finding
        → Puts W.contents out.old out.new (finding_members finding) }
{
    match found {
        Ok(contents) => put_contents_members(contents, out),
        Err(fault) => put_fault_member(b"fault", *fault, out),
    }
}

/// Writes the object of a dump's rest, where the rest has some bytes.
pub(crate) fn put_rest_object<W: Write>(dump: &Dump<'_>, out: &mut Watched<W>)
    ensures { Puts W.contents out.old out.new
        (rest_object (length (concat dump.now.lists)) dump.now.rest) }
{
    if dump.rest().is_empty() {
        return;
    }
    put_kind(b"rest", out);
    put_number(b"at", dump.rest_place(), out);
    put_number(b"size", dump.rest().len() as u64, out);
    end_object(out);
}

/// Writes as an object that there is no list of a number.
pub(crate) fn put_no_list_object<W: Write>(number: u64, out: &mut Watched<W>)
    ensures { Puts W.contents out.old out.new (no_list_object number) }
{
    put_kind(b"error", out);
    put_member(b"text", out);
    out.put(b"\"NO LIST ");
    out.put_decimal(number);
    out.put(b"\"");
    end_object(out);
}

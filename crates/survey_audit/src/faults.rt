//! Faults of forms packages and of lists.

ghost use Rattle.hii_bytes.specs.Watching.{Puts};
ghost use Rattle.hii_packages.specs.code.Package.{package_of};
ghost use Rattle.audit_json.specs.Telling.{told_as};
ghost use Rattle.survey_audit.specs.Lines.{fault_line, fault_object, fault_told, guid_members, guid_words, list_fault_line, list_fault_object, list_fault_told};
ghost use Rattle.survey_audit.specs.code.Headings.{heading_of};

use crate::heading::{Heading, put_numbers, put_numbers_members};
use audit_json::{Telling, end_object, put_fault_member, put_guid_member, put_kind, put_number};
use audit_text::{Case, put_guid};
use check_audit::form_set_of;
use hii_bytes::{Cause, Fault, Watched};
use hii_packages::Package;
use std::io::Write;

/// Tells by which fault a forms package is refused.
pub fn put_fault<W: Write>(heading: Heading<'_, '_>, fault: Fault, out: &mut Watched<W>)
    ensures { Puts W.contents out.old out.new (fault_told (heading_of heading.entry) fault) }
{
    match heading.telling {
        Telling::Lines => put_line(heading, fault, out),
        Telling::Objects => put_object(heading, fault, out),
    }
}

// Writes the line.
fn put_line<W: Write>(heading: Heading<'_, '_>, fault: Fault, out: &mut Watched<W>)
    ensures { Puts W.contents out.old out.new (fault_line (heading_of heading.entry) fault) }
{
    out.put(b"SET ");
    put_numbers(heading, out);
    put_guid_words(heading.source, out);
    out.put(b" ");
    out.put_fault(fault);
    out.put(b"\n");
}

// Writes the GUID of the form set with which a forms package begins, or a hyphen.
fn put_guid_words<W: Write>(source: Package<'_>, out: &mut Watched<W>)
    ensures { Puts W.contents out.old out.new (guid_words (package_of source.entry)) }
{
    match form_set_of(source) {
        Some(found) => put_guid(out, found.guid, Case::Upper),
        None => out.put(b"-"),
    }
}

// Writes the object.
fn put_object<W: Write>(heading: Heading<'_, '_>, fault: Fault, out: &mut Watched<W>)
    ensures { Puts W.contents out.old out.new (fault_object (heading_of heading.entry) fault) }
{
    put_kind(b"set", out);
    put_numbers_members(heading, out);
    put_guid_members(heading.source, out);
    put_fault_member(b"fault", fault, out);
    end_object(out);
}

// Writes the GUID of the form set with which a forms package begins as a member, if it begins with one.
fn put_guid_members<W: Write>(source: Package<'_>, out: &mut Watched<W>)
    ensures { Puts W.contents out.old out.new (guid_members (package_of source.entry)) }
{
    if let Some(found) = form_set_of(source) {
        put_guid_member(b"guid", found.guid, out);
    }
}

/// Tells by which fault a list is refused as a whole; of a list without a forms package nothing is told. The list has a number in the
/// dump, counted from 1.
pub fn put_list_fault<W: Write>(telling: Telling, list: u64, fault: Fault, out: &mut Watched<W>)
    ensures { Puts W.contents out.old out.new (list_fault_told telling list fault) }
{
    if fault.cause != Cause::NoForms {
        put_list_told(telling, list, fault, out);
    }
}

// Tells a fault of a list, whatever the cause.
fn put_list_told<W: Write>(telling: Telling, list: u64, fault: Fault, out: &mut Watched<W>)
    ensures { Puts W.contents out.old out.new
        (told_as telling (list_fault_line list fault) (list_fault_object list fault)) }
{
    match telling {
        Telling::Lines => put_list_line(list, fault, out),
        Telling::Objects => put_list_object(list, fault, out),
    }
}

// Writes the line.
fn put_list_line<W: Write>(list: u64, fault: Fault, out: &mut Watched<W>)
    ensures { Puts W.contents out.old out.new (list_fault_line list fault) }
{
    out.put(b"SET ");
    out.put_decimal(list);
    out.put(b" - - ");
    out.put_fault(fault);
    out.put(b"\n");
}

// Writes the object.
fn put_list_object<W: Write>(list: u64, fault: Fault, out: &mut Watched<W>)
    ensures { Puts W.contents out.old out.new (list_fault_object list fault) }
{
    put_kind(b"set", out);
    put_number(b"list", list, out);
    put_fault_member(b"fault", fault, out);
    end_object(out);
}

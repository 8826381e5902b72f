//! Which forms package of a dump is told.

ghost use Rattle.hii_bytes.specs.Watching.{Puts};
ghost use Rattle.survey_audit.specs.Lines.{head_members, head_words, numbers_members, numbers_words};
ghost use Rattle.survey_audit.specs.code.Headings.{heading_of};

use audit_json::{Telling, put_number};
use check_audit::{put_form_set, put_form_set_members};
use hii_bytes::Watched;
use hii_packages::Package;
use opcode_audit::FirstStrings;
use std::io::Write;

/// Which forms package of a dump is told, and how.
#[derive(Clone, Copy)]
pub struct Heading<'s, 'a> {
    pub telling: Telling,
    /// The number of its list in the dump, counted from 1.
    pub list: u64,
    /// Its number in the list, counted from 1.
    pub number: u64,
    /// The texts of the first string package of the list.
    pub strings: &'s FirstStrings<'a>,
    /// The package.
    pub source: Package<'a>,
    /// Its offset in the dump, in bytes.
    pub base: u64,
}

/// Writes the numbers.
pub(crate) fn put_numbers<W: Write>(heading: Heading<'_, '_>, out: &mut Watched<W>)
    ensures { Puts W.contents out.old out.new (numbers_words (heading_of heading.entry)) }
{
    out.put_decimal(heading.list);
    out.put(b" ");
    out.put_decimal(heading.number);
    out.put(b" ");
}

/// Writes the numbers as members of an object.
pub(crate) fn put_numbers_members<W: Write>(heading: Heading<'_, '_>, out: &mut Watched<W>)
    ensures { Puts W.contents out.old out.new (numbers_members (heading_of heading.entry)) }
{
    put_number(b"list", heading.list, out);
    put_number(b"package", heading.number, out);
}

/// Begins a line with the numbers, the GUID and the title.
pub(crate) fn put_head<W: Write>(heading: Heading<'_, '_>, out: &mut Watched<W>)
    ensures { Puts W.contents out.old out.new (head_words (heading_of heading.entry)) }
{
    out.put(b"SET ");
    put_numbers(heading, out);
    put_form_set(heading.strings, heading.source, out);
    out.put(b": ");
}

/// Writes the numbers, the GUID and the title as members of an object.
pub(crate) fn put_head_members<W: Write>(heading: Heading<'_, '_>, out: &mut Watched<W>)
    ensures { Puts W.contents out.old out.new (head_members (heading_of heading.entry)) }
{
    put_numbers_members(heading, out);
    put_form_set_members(heading.strings, heading.source, out);
}

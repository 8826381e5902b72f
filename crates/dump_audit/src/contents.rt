//! What the forms packages of a list tell.

ghost use Rattle.std.specs.Prelude.{◌≡◌, false, true, length, MatchOption};
ghost use Rattle.std.specs.List.{flat_map};
ghost use Rattle.hii_bytes.specs.Watching.{Puts};
ghost use Rattle.hii_packages.specs.Packages.{packages_of};
ghost use Rattle.ifr_opcodes.specs.Fields.{form_set_guid, form_set_title};
ghost use Rattle.dump_audit.specs.Contents.{begins_with_form_set, form_sets, forms_in, opcodes_of, first_title, guid_word};
ghost use Rattle.hii_packages.specs.code.Package.{package_of};
ghost use Rattle.audit_json.specs.Objects.{quoted};
ghost use Rattle.audit_text.specs.Texts.{guid_text};
ghost use Rattle.dump_audit.specs.Objects.{guids_member};

use audit_json::{put_array_end, put_before_item};
use audit_text::{Case, put_guid};
use hii_bytes::{Guid, Watched, u16_at};
use hii_packages::{FORMS, Package, PackageList};
use ifr_opcodes::FORM_SET;
use std::io::Write;

/// What names a form set, and the string id of its title.
#[derive(Clone, Copy)]
struct FormSet<'a> {
    guid: Guid<'a>,
    title: u16,
}

// The form set with which a forms package begins.
fn form_set_of(source: Package<'_>) -> Option<FormSet<'_>>
    ensures { MatchOption result (begins_with_form_set (package_of source.entry) ≡ false)
        (λ found. (begins_with_form_set (package_of source.entry) ≡ true)
        × (found.guid.bytes.now ≡ form_set_guid (opcodes_of (package_of source.entry)))
        × (found.title ≡ form_set_title (opcodes_of (package_of source.entry)))) }
{
    if source.kind != FORMS || source.bytes.len() < 27 || source.bytes[4] != FORM_SET {
        return None;
    }
    let opcodes = &source.bytes[4..];
    Some(FormSet {
        guid: Guid::at(opcodes, 2)?,
        title: u16_at(opcodes, 18)?,
    })
}

/// How many forms packages a list has.
pub(crate) fn forms_count(list: &PackageList<'_>) -> u64
    ensures { result ≡ length (forms_in (packages_of list.now)) }
{
    let mut count = 0;
    for source in list.packages() {
        if source.kind == FORMS {
            count += 1;
        }
    }
    count
}

/// Writes the GUIDs of the form sets with which forms packages begin, each behind a space, and answers the string id of the first
/// one's title.
pub(crate) fn put_form_sets<W: Write>(list: &PackageList<'_>, out: &mut Watched<W>) -> Option<u16>
    ensures text { Puts W.contents out.old out.new (flat_map guid_word (form_sets (packages_of list.now))) }
    ensures title { result ≡ first_title (form_sets (packages_of list.now)) }
{
    let mut title = None;
    for source in list.packages() {
        if let Some(found) = form_set_of(source) {
            out.put(b" ");
            put_guid(out, found.guid, Case::Upper);
            title = title.or(Some(found.title));
        }
    }
    title
}

/// The string id of the title of the first form set with which a forms package begins.
pub(crate) fn first_title(list: &PackageList<'_>) -> Option<u16>
    ensures { result ≡ first_title (form_sets (packages_of list.now)) }
{
    for source in list.packages() {
        if let Some(found) = form_set_of(source) {
            return Some(found.title);
        }
    }
    None
}

// Writes a GUID as a string of JSON.
fn put_guid_value<W: Write>(guid: Guid<'_>, out: &mut Watched<W>)
    ensures { Puts W.contents out.old out.new (quoted (guid_text true guid.entry.bytes.now)) }
{
    out.put(b"\"");
    put_guid(out, guid, Case::Upper);
    out.put(b"\"");
}

/// Writes the member that tells the GUIDs of the form sets with which forms packages begin.
pub(crate) fn put_guids_member<W: Write>(list: &PackageList<'_>, out: &mut Watched<W>)
    ensures { Puts W.contents out.old out.new (guids_member (packages_of list.now)) }
{
    let mut is_first = true;
    for source in list.packages() {
        if let Some(found) = form_set_of(source) {
            put_before_item(b"guids", is_first, out);
            put_guid_value(found.guid, out);
            is_first = false;
        }
    }
    put_array_end(is_first, out);
}

//! The form set with which a forms package begins.

ghost use Rattle.std.specs.Prelude.{◌≡◌, false, true, MatchOption};
ghost use Rattle.hii_packages.specs.code.Package.{package_of};
ghost use Rattle.ifr_opcodes.specs.Fields.{form_set_guid, form_set_title};
ghost use Rattle.dump_audit.specs.Contents.{begins_with_form_set, opcodes_of};

use hii_bytes::{Guid, u16_at};
use hii_packages::{FORMS, Package};
use ifr_opcodes::FORM_SET;

/// What names a form set, and the string id of its title.
#[derive(Clone, Copy)]
pub struct FormSet<'a> {
    /// Its GUID.
    pub guid: Guid<'a>,
    /// The string id.
    pub title: u16,
}

/// The form set with which a forms package begins.
pub fn form_set_of(source: Package<'_>) -> Option<FormSet<'_>>
    ensures { MatchOption result (begins_with_form_set (package_of source.entry) ≡ false)
        (λ found. (begins_with_form_set (package_of source.entry) ≡ true)
        × (found.guid.bytes.now ≡ form_set_guid (opcodes_of (package_of source.entry)))
        × (found.title ≡ form_set_title (opcodes_of (package_of source.entry)))) }
{
    if source.kind != FORMS || source.bytes.len() < 27 || source.bytes[4] != FORM_SET {
        return None;
    }
    let opcodes = &source.bytes[4..];
    Some(FormSet {
        guid: Guid::at(opcodes, 2)?,
        title: u16_at(opcodes, 18)?,
    })
}

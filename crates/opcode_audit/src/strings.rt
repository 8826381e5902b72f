//! The texts of the first string package of a list.

use hii_bytes::Cause;
use hii_languages::Shown;
use hii_packages::{Package, PackageList, STRINGS};
use sibt_strings::{StringTable, Units};
use std::alloc::{AllocError, Global};
use std::marker::Model;

/// The texts of the first string package of a list, seen as what it says; none where there is no string package, or the first has a
/// fault.
#[derive(Drop)]
pub struct FirstStrings<'a> {
    table: Option<StringTable<'a>>,
}

impl<'a> Model for FirstStrings<'a> {
    ghost use Rattle.std.specs.Prelude.{List};
    ghost use Rattle.browser_rules.specs.Strings.{Spoken};
    ghost use Rattle.opcode_audit.specs.code.Strings.{listed};

    ghost Value = { List Spoken };

    ghost view = { λ s. listed s.table };
}

impl<'a> FirstStrings<'a> {
    ghost use Rattle.std.specs.Prelude.{◌≡◌, IfOk, Some, option_map};
    ghost use Rattle.browser_rules.specs.Faults.{string_package_faults};
    ghost use Rattle.browser_rules.specs.Strings as chapter;
    ghost use Rattle.hii_packages.specs.code.Package.{package_of};
    ghost use Rattle.sibt_strings.specs.code.Views.{units_in};
    ghost use Rattle.hii_languages.specs.code.Views.{text_of};
    ghost use Rattle.opcode_audit.specs.Lines.{said_first, said_without};

    /// Reads the first string package, in memory of 8 bytes for each of its texts.
    pub fn read(alloc: Global, list: &PackageList<'a>) -> Result<FirstStrings<'a>, AllocError>
        ensures { IfOk result (λ strings. strings ≡ said_first list.now) }
    {
        for source in list.packages() {
            if source.kind == STRINGS {
                return FirstStrings::of_package(alloc, source);
            }
        }
        Ok(FirstStrings { table: None })
    }

    // What a string package says, unless it has a fault.
    fn of_package(alloc: Global, source: Package<'a>) -> Result<FirstStrings<'a>, AllocError>
        ensures { IfOk result (λ strings. strings
            ≡ said_without (string_package_faults (package_of source.entry)) (package_of source.entry)) }
    {
        match StringTable::of_package(alloc, source) {
            Ok(table) => Ok(FirstStrings { table: Some(table) }),
            Err(fault) if fault.cause == Cause::OutOfMemory => Err(AllocError),
            Err(_) => Ok(FirstStrings { table: None }),
        }
    }

    /// The text of a string id, if it has one.
    pub fn text(&self, id: u16) -> Option<Units<'a>>
        ensures { option_map units_in result ≡ chapter.text_in self.now id (Some 0) }
    {
        self.table.as_ref()?.text(id)
    }

    /// What is shown of a string id.
    pub fn shown(&self, id: u16) -> Shown<'a>
        ensures { text_of result ≡ chapter.shown self.now (Some 0) id }
    {
        if id == 0 {
            return Shown::Nothing;
        }
        match self.text(id) {
            Some(units) => Shown::Units(units),
            None => Shown::Missing(id),
        }
    }
}

//! A table of the texts of a string package.

ghost use Rattle.std.specs.Prelude.{◌≡◌, [], IfOk, IfErr, option_map};
ghost use Rattle.browser_rules.specs.Faults.{string_package_faults};
ghost use Rattle.hii_bytes.specs.Faults.{RefusesAmong, out_of_memory};
ghost use Rattle.hii_packages.specs.code.Package.{package_of};
ghost use Rattle.browser_rules.specs.Strings.{spoken_by, text_at};
ghost use Rattle.sibt_strings.specs.Shared.{is_in_both, texts_in_both};
ghost use Rattle.sibt_strings.specs.code.Views.{units_in};

use crate::front::split_text;
use crate::parts::Parts;
use crate::place::{TextPlace, place_at};
use crate::places::places_of_texts;
use crate::units::Units;
use hii_bytes::Fault;
use hii_packages::Package;
use std::alloc::Global;
use std::marker::Model;

/// The strings of a package with a table of its texts, seen as the language and the text of each string id.
#[derive(Drop)]
pub struct StringTable<'a> {
    language: &'a [u8],
    block_bytes: &'a [u8],
    // The place of each text, in the order of the ids that have one.
    places: Vec<TextPlace>,
}

impl<'a> Model for StringTable<'a> {
    ghost use Rattle.browser_rules.specs.Strings.{Spoken};

    ghost Value = { Spoken };

    ghost use Rattle.sibt_strings.specs.code.Views.{spoken_in};
    ghost use Rattle.sibt_strings.specs.code.Table.{HasTable};

    ghost view = { λ s. spoken_in s.language.now s.block_bytes.now };

    ghost invariant = { λ s. HasTable s.block_bytes.now s.places.items };
}

impl<'a> StringTable<'a> {
    /// A table of the texts of a string package, or its least fault: those of Strings::read, and OutOfMemory (60) at 0
    /// where an allocation fails. It takes 8 bytes for each string id that has a text.
    pub fn of_package(alloc: Global, source: Package<'a>) -> Result<StringTable<'a>, Fault>
        ensures read { IfOk result (λ spoken. spoken ≡ spoken_by (package_of source.entry)) }
        ensures sound { IfOk result (λ _. string_package_faults (package_of source.entry) ≡ []) }
        ensures refused { IfErr result (RefusesAmong (string_package_faults (package_of source.entry))) }
        // A package without a fault is read, unless an allocation fails.
        ensures accepted { string_package_faults (package_of source.entry) ≡ []
            → IfErr result (λ fault. fault ≡ out_of_memory) }
    {
        let parts = Parts::of(source)?;
        match places_of_texts(alloc, parts.block_bytes)? {
            Ok(places) => Ok(StringTable {
                language: parts.language()?,
                block_bytes: parts.block_bytes,
                places,
            }),
            Err(fault) => Err(parts.least_fault(fault)),
        }
    }

    /// The language, in ASCII.
    pub fn language(&self) -> &'a [u8]
        ensures { result.now ≡ self.now.language }
    {
        self.language
    }

    /// The text of a string id, if it has one.
    pub fn text(&self, id: u16) -> Option<Units<'a>>
        ensures { option_map units_in result ≡ text_at self.now.texts id }
    {
        let place = place_at(&self.places, id)?;
        let (units, _) = split_text(self.block_bytes.get(place as usize..)?)?;
        Some(units)
    }

    /// How many string ids have a text here and in another table. It looks at the ids that have one here.
    pub fn texts_in_both(&self, other: &StringTable<'_>) -> usize
        ensures { result ≡ texts_in_both self.now other.now }
    {
        let mut count = 0;
        for place in self.places.as_slice() {
            if self.is_in_both(other, place.id) {
                count += 1;
            }
        }
        count
    }

    // Whether a string id has a text in both.
    fn is_in_both(&self, other: &StringTable<'_>, id: u16) -> bool
        ensures { result ≡ is_in_both self.now other.now id }
    {
        self.text(id).is_some() && other.text(id).is_some()
    }
}

//! The strings of a package, read from its bytes.

ghost use Rattle.std.specs.Prelude.{◌≡◌, [], IfOk, IfErr, IsOk, option_map};
ghost use Rattle.browser_rules.specs.Faults.{string_package_faults};
ghost use Rattle.hii_bytes.specs.Faults.{IsLeastAmong};
ghost use Rattle.hii_packages.specs.code.Package.{package_of};
ghost use Rattle.browser_rules.specs.Strings.{spoken_by, text_at};
ghost use Rattle.sibt_strings.specs.code.Views.{units_in};

use crate::blocks::check_blocks;
use crate::entry::{Entry, entry_at};
use crate::parts::Parts;
use crate::units::Units;
use hii_bytes::Fault;
use hii_packages::Package;
use std::marker::Model;

/// The strings of a package, seen as its language and the text of each string id.
#[derive(Drop)]
pub struct Strings<'a> {
    pub(crate) language: &'a [u8],
    pub(crate) block_bytes: &'a [u8],
}

impl<'a> Model for Strings<'a> {
    ghost use Rattle.std.specs.Prelude.{◌<◌, ◌^◌, length};
    ghost use Rattle.browser_rules.specs.Strings.{Spoken};

    ghost Value = { Spoken };

    ghost use Rattle.sibt_strings.specs.code.Views.{spoken_in, HoldsBlocks};

    ghost view = { λ s. spoken_in s.language.now s.block_bytes.now };

    ghost invariant = { λ s. HoldsBlocks s.block_bytes.now × (length s.block_bytes.now < 2 ^ 24) };
}

impl<'a> Strings<'a> {
    /// The strings of a string package (UEFI 2.8, 33.3.6 String Package), or its least fault, at its place in bytes from
    /// the list's front: StringHeader where the fixed part is cut or the blocks do not begin behind it in the package,
    /// LanguageText where the language has no NUL or a byte above 0x7E before it, StringBlock at a block that is unknown
    /// or cut and where the end block is missing, StringText at a block with a text without a zero unit.
    pub fn read(source: Package<'a>) -> Result<Strings<'a>, Fault>
        ensures spoken { IfOk result (λ spoken. spoken ≡ spoken_by (package_of source.entry)) }
        ensures sound { IfOk result (λ _. string_package_faults (package_of source.entry) ≡ []) }
        ensures refused { IfErr result (IsLeastAmong (string_package_faults (package_of source.entry))) }
        // A package without a fault is read.
        ensures accepted { string_package_faults (package_of source.entry) ≡ [] → IsOk result }
    {
        let parts = Parts::of(source)?;
        match check_blocks(parts.block_bytes) {
            Ok(()) => Ok(Strings {
                language: parts.language()?,
                block_bytes: parts.block_bytes,
            }),
            Err(fault) => Err(parts.least_fault(fault)),
        }
    }

    /// The language, in ASCII.
    pub fn language(&self) -> &'a [u8]
        ensures { result.now ≡ self.now.language }
    {
        self.language
    }

    /// The text of a string id, if it has one. It walks over the blocks, once more for each duplicate on the way.
    pub fn text(&self, id: u16) -> Option<Units<'a>>
        ensures { option_map units_in result ≡ text_at self.now.texts id }
    {
        let mut wanted = id;
        'wanted: loop {
            match entry_at(self.block_bytes, wanted) {
                Entry::Text(units) => return Some(units),
                Entry::Duplicate(other) => wanted = other,
                Entry::Nothing => return None,
            }
        }
    }
}

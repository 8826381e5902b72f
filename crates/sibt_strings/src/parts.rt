//! The parts of a string package.

ghost use Rattle.std.specs.Prelude.{◌≡◌, ◌+◌, ◌<◌, Some, IfOk, IfErr, option_map};
ghost use Rattle.browser_rules.specs.Faults.{string_package_faults};
ghost use Rattle.hii_bytes.specs.Faults.{IsLeastAmong};
ghost use Rattle.hii_packages.specs.code.Package.{package_of};
ghost use Rattle.hii_bytes.specs.declared.cause.Cause.TheVariants.{LanguageText};
ghost use Rattle.sibt_strings.specs.code.Parts.{HasFixedPart, blocks_of};
ghost use Rattle.browser_rules.specs.Strings.{info_offset, language_of};
ghost use Rattle.sibt_strings.specs.code.Views.{HoldsBlocks, IsBlockFault};

use crate::blocks::language_at;
use hii_bytes::{Cause, Fault, u32_at};
use hii_packages::Package;

/// The parts of a string package with a whole fixed part: its language, if that is one, and the bytes from its first block
/// on.
#[derive(Clone, Copy)]
pub(crate) struct Parts<'a> {
    source: Package<'a>,
    language: Option<&'a [u8]>,
    offset: usize,
    pub(crate) block_bytes: &'a [u8],
    pub(crate) ghost fixed: { HasFixedPart source.bytes.now },
    pub(crate) ghost offset_is: { offset ≡ info_offset source.bytes.now },
    pub(crate) ghost language_is: { option_map (λ language. language.now) language
        ≡ language_of (package_of source) },
    pub(crate) ghost blocks_are: { block_bytes.now ≡ blocks_of source.bytes.now },
}

impl<'a> Parts<'a> {
    /// The parts of a string package, or the fault StringHeader.
    pub(crate) fn of(source: Package<'a>) -> Result<Parts<'a>, Fault>
        ensures parts { IfOk result (λ parts. parts.source ≡ source.entry) }
        ensures refused { IfErr result
            (IsLeastAmong (string_package_faults (package_of source.entry))) }
    {
        let bytes = source.bytes;
        if bytes.len() < 46 {
            return Err(Fault::at(Cause::StringHeader, source.place));
        }
        let offset = u32_at(bytes, 8).unwrap() as usize;
        if offset < 46 || bytes.len() < offset {
            return Err(Fault::at(Cause::StringHeader, source.place));
        }
        Ok(Parts {
            source,
            language: language_at(&bytes[46..offset]),
            offset,
            block_bytes: &bytes[offset..],
        })
    }

    // The fault of a language that is none.
    fn bad_language(self) -> Fault
        ensures { result ≡ record { cause = LanguageText; place = self.entry.source.place + 46 } }
    {
        Fault::at(Cause::LanguageText, self.source.place + 46)
    }

    /// The language of a package whose blocks are whole, or its fault.
    pub(crate) fn language(self) -> Result<&'a [u8], Fault>
        requires { HoldsBlocks self.block_bytes.now }
        ensures language { IfOk result (λ language.
            language_of (package_of self.entry.source) ≡ Some language.now) }
        ensures refused { IfErr result
            (IsLeastAmong (string_package_faults (package_of self.entry.source))) }
    {
        self.language.ok_or(self.bad_language())
    }

    /// The least fault of a package with a bad block, whose fault is given by its place from the first block.
    pub(crate) fn least_fault(self, bad_block: Fault) -> Fault
        requires { IsBlockFault self.block_bytes.now bad_block }
        ensures { IsLeastAmong (string_package_faults (package_of self.entry.source)) result }
    {
        let at = self.offset as u64 + bad_block.place;
        if self.language.is_none() && 46 < at {
            return self.bad_language();
        }
        Fault::at(bad_block.cause, self.source.place + at)
    }
}

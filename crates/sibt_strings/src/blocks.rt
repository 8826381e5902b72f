//! The parts of a string package behind its fixed part.

ghost use Rattle.std.specs.Prelude.{◌≡◌, IfErr, OnOk, option_map};
ghost use Rattle.browser_rules.specs.Strings.{language_in};
ghost use Rattle.sibt_strings.specs.code.Views.{HoldsBlocks, IsBlockFault};

use crate::front::{Front, front_at};
use hii_bytes::{Cause, Fault};

/// Whether the bytes are whole blocks up to an end block; the place of a fault counts from the first byte.
pub(crate) fn check_blocks(blocks: &[u8]) -> Result<(), Fault>
    ensures whole { OnOk result (HoldsBlocks blocks.now) }
    ensures bad { IfErr result (IsBlockFault blocks.now) }
{
    let mut rest = blocks;
    'walk: loop {
        let place = (blocks.len() - rest.len()) as u64;
        match front_at(rest) {
            Front::End => return Ok(()),
            Front::Whole(_, behind) => rest = behind,
            Front::CutText => return Err(Fault::at(Cause::StringText, place)),
            Front::BadBlock => return Err(Fault::at(Cause::StringBlock, place)),
        }
    }
}

/// The ASCII text before the first NUL.
pub(crate) fn language_at(bytes: &[u8]) -> Option<&[u8]>
    ensures { option_map (λ language. language.now) result ≡ language_in bytes.now }
{
    for (i, byte) in bytes.iter().enumerate() {
        if *byte == 0 {
            return Some(&bytes[..i]);
        }
        if *byte > 0x7e {
            return None;
        }
    }
    None
}

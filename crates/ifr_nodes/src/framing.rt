//! Whether the opcodes of a package open and end scopes as those of a forest do.

ghost use Rattle.std.specs.Prelude.{◌≤◌, ◌<◌, ◌^◌, length, IfErr, OnOk};
ghost use Rattle.hii_bytes.specs.Faults.{IsLeast};
ghost use Rattle.ifr_opcodes.specs.Forest.{SpellsForest};
ghost use Rattle.ifr_opcodes.specs.Reading.{tree_of};
ghost use Rattle.ifr_nodes.specs.Framing.{IsFramingFault};

use hii_bytes::{Cause, Fault};
use ifr_opcodes::{END, split_opcode};

/// The bytes of a package's header (UEFI 2.8, 33.3.1.2 EFI_HII_PACKAGE_HEADER).
pub const HEADER: usize = 4;

/// So many scopes may be open at once (own rule).
const MAX_DEPTH: usize = 64;

/// Whether a package spells a forest. One whose opcodes stop to be those of a forest is refused there, by the one
/// cause among OpLength, EndExtra, ScopeOpen and TooDeep.
pub fn check_framing(bytes: &[u8]) -> Result<(), Fault>
    requires header { 4 ≤ length bytes.now }
    requires small { length bytes.now < 2 ^ 32 }
    ensures spelled { OnOk result (SpellsForest bytes.now (tree_of bytes.now)) }
    ensures refused { IfErr result (IsLeast (IsFramingFault bytes.now)) }
{
    let mut rest = &bytes[HEADER..];
    let mut depth = 0;
    while !rest.is_empty() {
        let place = (bytes.len() - rest.len()) as u32;
        let Some((op, others)) = split_opcode(rest, place) else {
            return Err(Fault::at(Cause::OpLength, u64::from(place)));
        };
        if op.code == END {
            if depth == 0 {
                return Err(op.fault(Cause::EndExtra));
            }
            depth -= 1;
        } else if op.scope {
            if depth == MAX_DEPTH {
                return Err(op.fault(Cause::TooDeep));
            }
            depth += 1;
        }
        rest = others;
    }
    if depth != 0 {
        return Err(Fault::at(Cause::ScopeOpen, bytes.len() as u64));
    }
    Ok(())
}

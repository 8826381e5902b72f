//! Opcodes at the front of bytes, and at a place of a package.

ghost use Rattle.std.specs.Prelude.{◌≡◌, ℕ, List, ◌++◌, drop, IfOk, IfErr, IsOk, MatchOption};
ghost use Rattle.hii_bytes.specs.Faults.{IsLeast};
ghost use Rattle.ifr_opcodes.specs.Opcode.{IsWhole};
ghost use Rattle.ifr_opcodes.specs.code.Marks.{mark_at, IsOpFault};
ghost use Rattle.ifr_opcodes.specs.code.Ops.{bytes_of, op_of};

use crate::codes::END;
use crate::op::Op;
use hii_bytes::{Cause, Fault};

/// The bit of an opcode's second byte that says that it opens a scope.
const SCOPE: u8 = 0x80;

/// The whole opcode with which the bytes at a place begin, and what comes behind it.
pub fn split_opcode(bytes: &[u8], place: u32) -> Option<(Op<'_>, &[u8])>
    ensures { MatchOption result
        ((op more : List ℕ) → IsWhole op → bytes.entry.now ≡ op ++ more → ⊥)
        (λ parts. (parts.0.place ≡ place) × (bytes.entry.now ≡ bytes_of parts.0 ++ parts.1.now)) }
{
    let [code, sized, ..] = bytes else {
        return None;
    };
    let len = (*sized & 0x7f) as usize;
    let scope = *sized >= SCOPE;
    if len < 2 || bytes.len() < len {
        return None;
    }
    if *code == END && (len != 2 || scope) {
        return None;
    }
    let (op, others) = bytes.split_at(len);
    let op = Op {
        place,
        code: *code,
        scope,
        body: &op[2..],
    };
    Some((op, others))
}

/// The bytes from a place on, none past their end.
pub(crate) fn rest_from(bytes: &[u8], place: u32) -> &[u8]
    ensures { result.now ≡ drop place bytes.entry.now }
{
    bytes.get(place as usize..).unwrap_or(&[])
}

/// The whole opcode that stands at a place of a package, an offset in bytes from its header, where one does.
#[inline(always)]
pub fn op_there(bytes: &[u8], place: u32) -> Op<'_>
    requires { IsWhole (mark_at bytes.now place).op }
    ensures { op_of result ≡ mark_at bytes.entry.now place }
{
    let at = place as usize;
    let sized = bytes[at + 1];
    let end = at + usize::from(sized & 0x7f);
    Op {
        place,
        code: bytes[at],
        scope: sized >= SCOPE,
        body: &bytes[at + 2..end],
    }
}

/// The whole opcode that stands at a place of a package, an offset in bytes from its header. Where none does, also past
/// the package's end, it is refused by OpLength there.
pub fn op_at(bytes: &[u8], place: u32) -> Result<Op<'_>, Fault>
    ensures found { IfOk result (λ op. op_of op ≡ mark_at bytes.entry.now place) }
    ensures refused { IfErr result (IsLeast (IsOpFault bytes.entry.now place)) }
    ensures accepted { IsWhole (mark_at bytes.entry.now place).op → IsOk result }
{
    match split_opcode(rest_from(bytes, place), place) {
        Some((op, _)) => Ok(op),
        None => Err(Fault::at(Cause::OpLength, u64::from(place))),
    }
}

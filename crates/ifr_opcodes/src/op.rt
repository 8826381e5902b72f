//! One opcode.

ghost use Rattle.ifr_opcodes.specs.code.Props.{spelled, IsWhole-prop};
ghost use Rattle.ifr_opcodes.specs.Opcode.{IsWhole};

use crate::rows::{is_left_out, is_short};
use crate::split::rest_from;
use hii_bytes::{Cause, Fault, Guid, number_at, u16_at, u32_at};

/// A whole opcode of a forms package (UEFI 2.8, 33.3.8.2.1 EFI_IFR_OP_HEADER).
#[derive(Clone, Copy)]
pub struct Op<'a> {
    /// Where it begins, in bytes from the package's header.
    pub place: u32,
    /// The number of the opcode.
    pub code: u8,
    /// Whether it opens a scope.
    pub scope: bool,
    /// The bytes behind its number and its length byte.
    pub body: &'a [u8],
    pub ghost whole: { IsWhole (spelled code scope body.now) } by { IsWhole-prop (spelled code scope body.now) },
}

impl<'a> Op<'a> {
    ghost use Rattle.std.specs.Prelude.{◌≡◌, ◌+◌, ◌<◌, ◌≤◌, ◌⊎◌, true, false, length, drop, slice_range, OnOk, IfErr};
    ghost use Rattle.hii_bytes.specs.Faults.{IsLeast};
    ghost use Rattle.hii_bytes.specs.Numbers.{number_in};
    ghost use Rattle.ifr_opcodes.specs.Fields.{number_where};
    ghost use Rattle.ifr_opcodes.specs.Rows as rows;
    ghost use Rattle.ifr_opcodes.specs.Rows.{is_row, IsMisread, IsShort};
    ghost use Rattle.ifr_opcodes.specs.code.Ops.{bytes_of, op_of};
    ghost use Rattle.ifr_opcodes.specs.code.Tables.{row_length, least_length};

    /// How many bytes it has, from 2 to 127.
    pub fn len(self) -> usize
        ensures { result ≡ length (bytes_of self.entry) }
    {
        2 + self.body.len()
    }

    /// The byte at an offset from the opcode's first byte.
    pub(crate) fn u8_at(self, at: usize) -> u8
        requires behind_header { 2 ≤ at }
        requires within { at < length (bytes_of self) }
        ensures { result ≡ number_in (bytes_of self.entry) at 1 }
    {
        self.body[at - 2]
    }

    /// The two bytes at an offset from the opcode's first byte.
    pub(crate) fn u16_at(self, at: usize) -> u16
        requires behind_header { 2 ≤ at }
        requires within { at + 2 ≤ length (bytes_of self) }
        ensures { result ≡ number_in (bytes_of self.entry) at 2 }
    {
        u16_at(self.body, at - 2).unwrap()
    }

    /// The two bytes at an offset from the opcode's first byte, where the opcode has them.
    pub(crate) fn u16_where(self, at: usize) -> Option<u16>
        requires behind_header { 2 ≤ at }
        requires small { at < 128 }
        ensures { result ≡ number_where (bytes_of self.entry) at 2 }
    {
        if self.len() < at + 2 {
            return None;
        }
        Some(self.u16_at(at))
    }

    /// The four bytes at an offset from the opcode's first byte.
    pub(crate) fn u32_at(self, at: usize) -> u32
        requires behind_header { 2 ≤ at }
        requires within { at + 4 ≤ length (bytes_of self) }
        ensures { result ≡ number_in (bytes_of self.entry) at 4 }
    {
        u32_at(self.body, at - 2).unwrap()
    }

    /// The GUID at an offset from the opcode's first byte.
    pub(crate) fn guid_at(self, at: usize) -> Guid<'a>
        requires behind_header { 2 ≤ at }
        requires within { at + 16 ≤ length (bytes_of self) }
        ensures { result.bytes.now ≡ slice_range (bytes_of self.entry) at (at + 16) }
    {
        Guid::at(self.body, at - 2).unwrap()
    }

    /// The number in 1, 2, 4 or 8 bytes at an offset from the opcode's first byte.
    pub(crate) fn number_at(self, at: usize, width: usize) -> u64
        requires wide { (width ≡ 1) ⊎ (width ≡ 2) ⊎ (width ≡ 4) ⊎ (width ≡ 8) }
        requires behind_header { 2 ≤ at }
        requires within { at + width ≤ length (bytes_of self) }
        ensures { result ≡ number_in (bytes_of self.entry) at width }
    {
        number_at(self.body, at - 2, width).unwrap()
    }

    /// The bytes from an offset from the opcode's first byte on.
    pub(crate) fn bytes_from(self, at: u32) -> &'a [u8]
        requires { 2 ≤ at }
        ensures { result.now ≡ drop at (bytes_of self.entry) }
    {
        rest_from(self.body, at - 2)
    }

    /// A fault at the opcode's place.
    pub fn fault(self, cause: Cause) -> Fault
        ensures { result ≡ record { cause = cause; place = self.entry.place } }
    {
        Fault::at(cause, u64::from(self.place))
    }

    /// Refuses an opcode of another number, or one that is left out, by OpOutside, and one that lacks bytes of its fields
    /// by OpSize.
    pub(crate) fn check_row(self, code: u8) -> Result<(), Fault>
        ensures read { OnOk result ((self.entry.code ≡ code)
            × (is_row code (bytes_of self.entry) ≡ true)
            × (rows.is_short (bytes_of self.entry) ≡ false)
            × (row_length code (bytes_of self.entry) ≤ length (bytes_of self.entry))) }
        ensures refused { IfErr result (IsLeast (IsMisread (is_row code) (op_of self.entry))) }
    {
        if self.code != code || is_left_out(self) {
            return Err(self.fault(Cause::OpOutside));
        }
        self.check_size()
    }

    /// Refuses an opcode that lacks bytes of its fields by OpSize.
    pub(crate) fn check_size(self) -> Result<(), Fault>
        ensures read { OnOk result ((rows.is_short (bytes_of self.entry) ≡ false)
            × (least_length (bytes_of self.entry) ≤ length (bytes_of self.entry))) }
        ensures refused { IfErr result (IsLeast (IsShort (op_of self.entry))) }
    {
        if is_short(self) {
            return Err(self.fault(Cause::OpSize));
        }
        Ok(())
    }
}

//! Defaults of questions.

ghost use Rattle.std.specs.Prelude.{◌≡◌, ◌≤◌, ◌+◌, length};
ghost use Rattle.ifr_opcodes.specs.declared.codes.TheConstants.{DEFAULT};
ghost use Rattle.ifr_opcodes.specs.declared.kinds.TheConstants.{TYPE_REF};
ghost use Rattle.browser_rules.specs.Opcodes.{type_width};
ghost use Rattle.ifr_opcodes.specs.Fields.{default_kind};
ghost use Rattle.ifr_opcodes.specs.code.Ops.{bytes_of};

use crate::codes::DEFAULT;
use crate::kinds::{TYPE_BUFFER, kind_width};
use crate::op::Op;
use hii_bytes::Fault;

/// A question's default of a class (UEFI 2.8, 33.3.8.3, EFI_IFR_DEFAULT).
#[derive(Clone, Copy)]
pub struct DefaultOp<'a> {
    pub op: Op<'a>,
    pub ghost coded: { op.code ≡ DEFAULT },
    pub ghost sized: { 5 + type_width (default_kind (bytes_of op)) ≤ length (bytes_of op) },
    pub ghost known: { default_kind (bytes_of op) ≤ TYPE_REF },
}

impl<'a> DefaultOp<'a> {
    ghost use Rattle.ifr_opcodes.specs.Fields.{default_id, default_value};
    ghost use Rattle.ifr_opcodes.specs.Rows.{is_row};
    ghost use Rattle.ifr_opcodes.specs.code.Views.{Reads};

    /// Another opcode, and one whose Type is not defined, is refused by OpOutside, one that lacks its Type or bytes of its
    /// value by OpSize, each at its place.
    #[tactic(auto, using(crate::proofs::RowLemmas::default_known))]
    pub fn read(op: Op<'a>) -> Result<DefaultOp<'a>, Fault>
        ensures { Reads (is_row DEFAULT) (λ view. view.op) op.entry result }
    {
        op.check_row(DEFAULT)?;
        Ok(DefaultOp { op })
    }

    /// The id of the class of defaults.
    pub fn id(self) -> u16
        ensures { result ≡ default_id (bytes_of self.entry.op) }
    {
        self.op.u16_at(2)
    }

    /// The Type of the value.
    pub fn kind(self) -> u8
        ensures { result ≡ default_kind (bytes_of self.entry.op) }
    {
        self.op.u8_at(4)
    }

    /// The bytes of its value, the lowest first; of a buffer all to the opcode's end.
    pub fn value(self) -> &'a [u8]
        ensures { result.now ≡ default_value (bytes_of self.entry.op) }
    {
        let rest = self.op.bytes_from(5);
        if self.kind() == TYPE_BUFFER {
            return rest;
        }
        &rest[..kind_width(self.kind())]
    }
}

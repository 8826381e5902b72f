//! Two questions compared.

ghost use Rattle.std.specs.Prelude.{◌≡◌, ◌≤◌, length};
ghost use Rattle.ifr_opcodes.specs.declared.codes.TheConstants.{EQ_ID_ID};
ghost use Rattle.ifr_opcodes.specs.code.Ops.{bytes_of};

use crate::op::Op;

/// Whether the values of two questions are equal (UEFI 2.8, 33.3.8.3, EFI_IFR_EQ_ID_ID).
#[derive(Clone, Copy)]
pub struct EqIdIdOp<'a> {
    pub op: Op<'a>,
    pub ghost coded: { op.code ≡ EQ_ID_ID },
    pub ghost sized: { 6 ≤ length (bytes_of op) },
}

impl<'a> EqIdIdOp<'a> {
    ghost use Rattle.ifr_opcodes.specs.Fields.{eq_id_id_first, eq_id_id_second};

    /// The first question's id.
    pub fn first(self) -> u16
        ensures { result ≡ eq_id_id_first (bytes_of self.entry.op) }
    {
        self.op.u16_at(2)
    }

    /// The second question's id.
    pub fn second(self) -> u16
        ensures { result ≡ eq_id_id_second (bytes_of self.entry.op) }
    {
        self.op.u16_at(4)
    }
}

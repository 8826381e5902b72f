//! A question compared with a number.

ghost use Rattle.std.specs.Prelude.{◌≡◌, ◌≤◌, length};
ghost use Rattle.ifr_opcodes.specs.declared.codes.TheConstants.{EQ_ID_VAL};
ghost use Rattle.ifr_opcodes.specs.code.Ops.{bytes_of};

use crate::op::Op;

/// Whether a question's value is a number (UEFI 2.8, 33.3.8.3, EFI_IFR_EQ_ID_VAL).
#[derive(Clone, Copy)]
pub struct EqIdValOp<'a> {
    pub op: Op<'a>,
    pub ghost coded: { op.code ≡ EQ_ID_VAL },
    pub ghost sized: { 6 ≤ length (bytes_of op) },
}

impl<'a> EqIdValOp<'a> {
    ghost use Rattle.ifr_opcodes.specs.Fields.{eq_id_val_question, eq_id_val_value};

    /// The question's id.
    pub fn question(self) -> u16
        ensures { result ≡ eq_id_val_question (bytes_of self.entry.op) }
    {
        self.op.u16_at(2)
    }

    /// The number.
    pub fn value(self) -> u16
        ensures { result ≡ eq_id_val_value (bytes_of self.entry.op) }
    {
        self.op.u16_at(4)
    }
}

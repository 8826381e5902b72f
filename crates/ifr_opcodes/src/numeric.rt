//! Questions for a number.

ghost use Rattle.std.specs.Prelude.{◌≡◌, ◌≤◌, ◌+◌, ◌*◌, ◌⊎◌, length};
ghost use Rattle.ifr_opcodes.specs.declared.codes.TheConstants.{NUMERIC};
ghost use Rattle.ifr_opcodes.specs.Fields.{numeric_width};
ghost use Rattle.ifr_opcodes.specs.code.Ops.{bytes_of, op_of};

use crate::codes::NUMERIC;
use crate::numbers::{Display, display_of_flags, width_of_flags};
use crate::op::Op;
use crate::questions::QuestionOp;
use hii_bytes::Fault;

/// A question for a number (UEFI 2.8, 33.3.8.3, EFI_IFR_NUMERIC).
#[derive(Clone, Copy)]
pub struct NumericOp<'a> {
    pub op: Op<'a>,
    pub ghost coded: { op.code ≡ NUMERIC },
    pub ghost sized: { 14 + 3 * numeric_width (bytes_of op) ≤ length (bytes_of op) },
}

impl<'a> NumericOp<'a> {
    ghost use Rattle.ifr_opcodes.specs.Fields.{display, numeric_flags, numeric_minimum, numeric_maximum, numeric_step};
    ghost use Rattle.ifr_opcodes.specs.Rows.{is_row};
    ghost use Rattle.ifr_opcodes.specs.code.Views.{Reads};

    /// Another opcode is refused by OpOutside, one that lacks bytes of its three numbers by OpSize, each at its place.
    pub fn read(op: Op<'a>) -> Result<NumericOp<'a>, Fault>
        ensures { Reads (is_row NUMERIC) (λ view. view.op) op.entry result }
    {
        op.check_row(NUMERIC)?;
        Ok(NumericOp { op })
    }

    /// What it has as a question.
    #[tactic(auto, unfolding(crate::specs::Rows::is_question_number, browser_rules::specs::Opcodes::row_of))]
    pub fn question(self) -> QuestionOp<'a>
        ensures { op_of result.op ≡ op_of self.entry.op }
    {
        QuestionOp { op: self.op }
    }

    /// The flags of the NUMERIC, which tell how many bytes each of its numbers has, and how they are shown.
    pub fn flags(self) -> u8
        ensures { result ≡ numeric_flags (bytes_of self.entry.op) }
    {
        self.op.u8_at(13)
    }

    /// How many bytes each of its numbers has: 1, 2, 4 or 8.
    pub fn width(self) -> usize
        ensures width { result ≡ numeric_width (bytes_of self.entry.op) }
        ensures wide { (result ≡ 1) ⊎ (result ≡ 2) ⊎ (result ≡ 4) ⊎ (result ≡ 8) }
    {
        width_of_flags(self.flags())
    }

    /// How its number is shown.
    pub fn display(self) -> Display
        ensures { result ≡ display (bytes_of self.entry.op) }
    {
        display_of_flags(self.flags())
    }

    /// The least number, as a bit pattern.
    #[inline(always)]
    pub fn minimum(self) -> u64
        ensures { result ≡ numeric_minimum (bytes_of self.entry.op) }
    {
        self.op.number_at(14, self.width())
    }

    /// The greatest number, as a bit pattern.
    #[inline(always)]
    pub fn maximum(self) -> u64
        ensures { result ≡ numeric_maximum (bytes_of self.entry.op) }
    {
        let width = self.width();
        self.op.number_at(14 + width, width)
    }

    /// By how much it changes at a step, as a bit pattern.
    pub fn step(self) -> u64
        ensures { result ≡ numeric_step (bytes_of self.entry.op) }
    {
        let width = self.width();
        self.op.number_at(14 + 2 * width, width)
    }
}

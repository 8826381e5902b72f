//! Questions for one of several values.

ghost use Rattle.std.specs.Prelude.{◌≡◌, ◌≤◌, ◌+◌, ◌*◌, ◌⊎◌, length};
ghost use Rattle.ifr_opcodes.specs.declared.codes.TheConstants.{ONE_OF};
ghost use Rattle.ifr_opcodes.specs.Fields.{one_of_width};
ghost use Rattle.ifr_opcodes.specs.code.Ops.{bytes_of, op_of};

use crate::codes::ONE_OF;
use crate::numbers::width_of_flags;
use crate::op::Op;
use crate::questions::QuestionOp;
use hii_bytes::Fault;

/// A question for the value of one of its options (UEFI 2.8, 33.3.8.3, EFI_IFR_ONE_OF).
#[derive(Clone, Copy)]
pub struct OneOfOp<'a> {
    pub op: Op<'a>,
    pub ghost coded: { op.code ≡ ONE_OF },
    pub ghost sized: { 14 + 3 * one_of_width (bytes_of op) ≤ length (bytes_of op) },
}

impl<'a> OneOfOp<'a> {
    ghost use Rattle.ifr_opcodes.specs.Fields.{one_of_flags, one_of_minimum, one_of_maximum, one_of_step};
    ghost use Rattle.ifr_opcodes.specs.Rows.{is_row};
    ghost use Rattle.ifr_opcodes.specs.code.Views.{Reads};

    /// Another opcode is refused by OpOutside, one that lacks bytes of its three numbers by OpSize, each at its place.
    pub fn read(op: Op<'a>) -> Result<OneOfOp<'a>, Fault>
        ensures { Reads (is_row ONE_OF) (λ view. view.op) op.entry result }
    {
        op.check_row(ONE_OF)?;
        Ok(OneOfOp { op })
    }

    /// What it has as a question.
    #[tactic(auto, unfolding(crate::specs::Rows::is_question_number, browser_rules::specs::Opcodes::row_of))]
    pub fn question(self) -> QuestionOp<'a>
        ensures { op_of result.op ≡ op_of self.entry.op }
    {
        QuestionOp { op: self.op }
    }

    /// The flags of the ONE_OF, which tell how many bytes its value has.
    pub fn flags(self) -> u8
        ensures { result ≡ one_of_flags (bytes_of self.entry.op) }
    {
        self.op.u8_at(13)
    }

    /// How many bytes its value has: 1, 2, 4 or 8.
    pub fn width(self) -> usize
        ensures width { result ≡ one_of_width (bytes_of self.entry.op) }
        ensures wide { (result ≡ 1) ⊎ (result ≡ 2) ⊎ (result ≡ 4) ⊎ (result ≡ 8) }
    {
        width_of_flags(self.flags())
    }

    /// The least value, as a bit pattern. No rule asks it: its options are the values of a ONE_OF.
    pub fn minimum(self) -> u64
        ensures { result ≡ one_of_minimum (bytes_of self.entry.op) }
    {
        self.op.number_at(14, self.width())
    }

    /// The greatest value, as a bit pattern. No rule asks it.
    pub fn maximum(self) -> u64
        ensures { result ≡ one_of_maximum (bytes_of self.entry.op) }
    {
        let width = self.width();
        self.op.number_at(14 + width, width)
    }

    /// By how much it changes at a step, as a bit pattern. No rule asks it.
    pub fn step(self) -> u64
        ensures { result ≡ one_of_step (bytes_of self.entry.op) }
    {
        let width = self.width();
        self.op.number_at(14 + 2 * width, width)
    }
}

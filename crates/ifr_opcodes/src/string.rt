//! Questions for a text.

ghost use Rattle.std.specs.Prelude.{◌≡◌, ◌≤◌, length};
ghost use Rattle.ifr_opcodes.specs.declared.codes.TheConstants.{STRING};
ghost use Rattle.ifr_opcodes.specs.code.Ops.{bytes_of, op_of};

use crate::codes::STRING;
use crate::op::Op;
use crate::questions::QuestionOp;
use hii_bytes::Fault;

/// A question for a text (UEFI 2.8, 33.3.8.3, EFI_IFR_STRING).
#[derive(Clone, Copy)]
pub struct StringOp<'a> {
    pub op: Op<'a>,
    pub ghost coded: { op.code ≡ STRING },
    pub ghost sized: { 16 ≤ length (bytes_of op) },
}

impl<'a> StringOp<'a> {
    ghost use Rattle.ifr_opcodes.specs.Fields.{string_minimum, string_maximum, string_flags};
    ghost use Rattle.ifr_opcodes.specs.Rows.{is_row};
    ghost use Rattle.ifr_opcodes.specs.code.Views.{Reads};

    /// Another opcode is refused by OpOutside, one of less than 16 bytes by OpSize, each at its place.
    pub fn read(op: Op<'a>) -> Result<StringOp<'a>, Fault>
        ensures { Reads (is_row STRING) (λ view. view.op) op.entry result }
    {
        op.check_row(STRING)?;
        Ok(StringOp { op })
    }

    /// What it has as a question.
    #[tactic(auto, unfolding(crate::specs::Rows::is_question_number, browser_rules::specs::Opcodes::row_of))]
    pub fn question(self) -> QuestionOp<'a>
        ensures { op_of result.op ≡ op_of self.entry.op }
    {
        QuestionOp { op: self.op }
    }

    /// How many characters the text has at least.
    pub fn minimum(self) -> u8
        ensures { result ≡ string_minimum (bytes_of self.entry.op) }
    {
        self.op.u8_at(13)
    }

    /// How many characters the text has at most.
    pub fn maximum(self) -> u8
        ensures { result ≡ string_maximum (bytes_of self.entry.op) }
    {
        self.op.u8_at(14)
    }

    /// The flags of the STRING.
    pub fn flags(self) -> u8
        ensures { result ≡ string_flags (bytes_of self.entry.op) }
    {
        self.op.u8_at(15)
    }
}

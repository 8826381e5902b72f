//! Questions for a password.

ghost use Rattle.std.specs.Prelude.{◌≡◌};
ghost use Rattle.ifr_opcodes.specs.code.Ops.{bytes_of, op_of};

use crate::codes::PASSWORD;
use crate::questions::QuestionOp;
use crate::row_view::RowView;

/// A question for a password (UEFI 2.8, 33.3.8.3, EFI_IFR_PASSWORD), of 17 bytes and more.
pub type PasswordOp<'a> = RowView<'a, PASSWORD>;

impl<'a> PasswordOp<'a> {
    ghost use Rattle.ifr_opcodes.specs.Fields.{password_minimum, password_maximum};

    /// What it has as a question.
    #[tactic(auto, unfolding(crate::specs::Rows::is_question_number, browser_rules::specs::Opcodes::row_of))]
    pub fn question(self) -> QuestionOp<'a>
        ensures { op_of result.op ≡ op_of self.entry.op }
    {
        QuestionOp { op: self.op }
    }

    /// How many characters the password has at least.
    pub fn minimum(self) -> u16
        ensures { result ≡ password_minimum (bytes_of self.entry.op) }
    {
        self.op.u16_at(13)
    }

    /// How many characters the password has at most.
    pub fn maximum(self) -> u16
        ensures { result ≡ password_maximum (bytes_of self.entry.op) }
    {
        self.op.u16_at(15)
    }
}

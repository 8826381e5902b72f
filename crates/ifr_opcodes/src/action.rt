//! Actions.

ghost use Rattle.std.specs.Prelude.{◌≡◌};
ghost use Rattle.ifr_opcodes.specs.code.Ops.{bytes_of, op_of};

use crate::codes::ACTION;
use crate::questions::QuestionOp;
use crate::row_view::RowView;

/// A question that starts something (UEFI 2.8, 33.3.8.3, EFI_IFR_ACTION), of 13 bytes and more.
pub type ActionOp<'a> = RowView<'a, ACTION>;

impl<'a> ActionOp<'a> {
    ghost use Rattle.ifr_opcodes.specs.Fields.{action_text};

    /// What it has as a question.
    #[tactic(auto, unfolding(crate::specs::Rows::is_question_number, browser_rules::specs::Opcodes::row_of))]
    pub fn question(self) -> QuestionOp<'a>
        ensures { op_of result.op ≡ op_of self.entry.op }
    {
        QuestionOp { op: self.op }
    }

    /// The string id of the text that it hands on, where it has one.
    pub fn text(self) -> Option<u16>
        ensures { result ≡ action_text (bytes_of self.entry.op) }
    {
        self.op.u16_where(13)
    }
}

//! Questions for a date and for a time of day.

ghost use Rattle.std.specs.Prelude.{◌≡◌};
ghost use Rattle.ifr_opcodes.specs.code.Ops.{bytes_of, op_of};

use crate::codes::{DATE, TIME};
use crate::questions::QuestionOp;
use crate::row_view::RowView;

/// A question for a date (UEFI 2.8, 33.3.8.3, EFI_IFR_DATE), of 14 bytes and more.
pub type DateOp<'a> = RowView<'a, DATE>;

impl<'a> DateOp<'a> {
    ghost use Rattle.ifr_opcodes.specs.Fields.{date_flags};

    /// What it has as a question.
    #[tactic(auto, unfolding(crate::specs::Rows::is_question_number, browser_rules::specs::Opcodes::row_of))]
    pub fn question(self) -> QuestionOp<'a>
        ensures { op_of result.op ≡ op_of self.entry.op }
    {
        QuestionOp { op: self.op }
    }

    /// The flags of the DATE.
    pub fn flags(self) -> u8
        ensures { result ≡ date_flags (bytes_of self.entry.op) }
    {
        self.op.u8_at(13)
    }
}

/// A question for a time of day (UEFI 2.8, 33.3.8.3, EFI_IFR_TIME), of 14 bytes and more.
pub type TimeOp<'a> = RowView<'a, TIME>;

impl<'a> TimeOp<'a> {
    ghost use Rattle.ifr_opcodes.specs.Fields.{time_flags};

    /// What it has as a question.
    #[tactic(auto, unfolding(crate::specs::Rows::is_question_number, browser_rules::specs::Opcodes::row_of))]
    pub fn question(self) -> QuestionOp<'a>
        ensures { op_of result.op ≡ op_of self.entry.op }
    {
        QuestionOp { op: self.op }
    }

    /// The flags of the TIME.
    pub fn flags(self) -> u8
        ensures { result ≡ time_flags (bytes_of self.entry.op) }
    {
        self.op.u8_at(13)
    }
}

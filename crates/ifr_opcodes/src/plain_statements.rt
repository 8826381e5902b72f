//! Statements that are no questions.

ghost use Rattle.std.specs.Prelude.{◌≡◌};
ghost use Rattle.ifr_opcodes.specs.code.Ops.{bytes_of, op_of};

use crate::codes::{RESET_BUTTON, SUBTITLE, TEXT};
use crate::questions::StatementOp;
use crate::row_view::RowView;

/// A statement that heads others (UEFI 2.8, 33.3.8.3, EFI_IFR_SUBTITLE), of 7 bytes and more.
pub type SubtitleOp<'a> = RowView<'a, SUBTITLE>;

impl<'a> SubtitleOp<'a> {
    ghost use Rattle.ifr_opcodes.specs.Fields.{subtitle_flags};

    /// What it has as a statement.
    #[tactic(auto, unfolding(crate::specs::Rows::is_statement_number, browser_rules::specs::Opcodes::row_of))]
    pub fn statement(self) -> StatementOp<'a>
        ensures { op_of result.op ≡ op_of self.entry.op }
    {
        StatementOp { op: self.op }
    }

    /// The flags of the SUBTITLE.
    pub fn flags(self) -> u8
        ensures { result ≡ subtitle_flags (bytes_of self.entry.op) }
    {
        self.op.u8_at(6)
    }
}

/// A statement of two texts (UEFI 2.8, 33.3.8.3, EFI_IFR_TEXT), of 8 bytes and more.
pub type TextOp<'a> = RowView<'a, TEXT>;

impl<'a> TextOp<'a> {
    ghost use Rattle.ifr_opcodes.specs.Fields.{text_second};

    /// What it has as a statement.
    #[tactic(auto, unfolding(crate::specs::Rows::is_statement_number, browser_rules::specs::Opcodes::row_of))]
    pub fn statement(self) -> StatementOp<'a>
        ensures { op_of result.op ≡ op_of self.entry.op }
    {
        StatementOp { op: self.op }
    }

    /// The string id of the second text.
    pub fn second(self) -> u16
        ensures { result ≡ text_second (bytes_of self.entry.op) }
    {
        self.op.u16_at(6)
    }
}

/// A statement that sets the defaults of a class (UEFI 2.8, 33.3.8.3, EFI_IFR_RESET_BUTTON), of 8 bytes and more.
pub type ResetButtonOp<'a> = RowView<'a, RESET_BUTTON>;

impl<'a> ResetButtonOp<'a> {
    ghost use Rattle.ifr_opcodes.specs.Fields.{reset_default};

    /// What it has as a statement.
    #[tactic(auto, unfolding(crate::specs::Rows::is_statement_number, browser_rules::specs::Opcodes::row_of))]
    pub fn statement(self) -> StatementOp<'a>
        ensures { op_of result.op ≡ op_of self.entry.op }
    {
        StatementOp { op: self.op }
    }

    /// The id of the class of defaults.
    pub fn default_id(self) -> u16
        ensures { result ≡ reset_default (bytes_of self.entry.op) }
    {
        self.op.u16_at(6)
    }
}

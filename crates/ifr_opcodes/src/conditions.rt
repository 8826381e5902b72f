//! Conditions of questions that deny and warn.

ghost use Rattle.std.specs.Prelude.{◌≡◌};
ghost use Rattle.ifr_opcodes.specs.code.Ops.{bytes_of};

use crate::codes::{INCONSISTENT_IF, NO_SUBMIT_IF, WARNING_IF};
use crate::row_view::RowView;

/// A condition that denies a change of its question (UEFI 2.8, 33.3.8.3, EFI_IFR_INCONSISTENT_IF), of 4 bytes and more.
pub type InconsistentIfOp<'a> = RowView<'a, INCONSISTENT_IF>;

impl<'a> InconsistentIfOp<'a> {
    ghost use Rattle.ifr_opcodes.specs.Fields.{inconsistent_error};

    /// The string id of the text that says why.
    pub fn error(self) -> u16
        ensures { result ≡ inconsistent_error (bytes_of self.entry.op) }
    {
        self.op.u16_at(2)
    }
}

/// A condition that denies a submission (UEFI 2.8, 33.3.8.3, EFI_IFR_NO_SUBMIT_IF), of 4 bytes and more.
pub type NoSubmitIfOp<'a> = RowView<'a, NO_SUBMIT_IF>;

impl<'a> NoSubmitIfOp<'a> {
    ghost use Rattle.ifr_opcodes.specs.Fields.{no_submit_error};

    /// The string id of the text that says why.
    pub fn error(self) -> u16
        ensures { result ≡ no_submit_error (bytes_of self.entry.op) }
    {
        self.op.u16_at(2)
    }
}

/// A condition that warns at a change of its question (UEFI 2.8, 33.3.8.3, EFI_IFR_WARNING_IF), of 5 bytes and more.
pub type WarningIfOp<'a> = RowView<'a, WARNING_IF>;

impl<'a> WarningIfOp<'a> {
    ghost use Rattle.ifr_opcodes.specs.Fields.{warning_message, warning_timeout};

    /// The string id of the text.
    pub fn text(self) -> u16
        ensures { result ≡ warning_message (bytes_of self.entry.op) }
    {
        self.op.u16_at(2)
    }

    /// For how many seconds the text is shown, or 0.
    pub fn timeout(self) -> u8
        ensures { result ≡ warning_timeout (bytes_of self.entry.op) }
    {
        self.op.u8_at(4)
    }
}

//! Form sets, forms and rules.

ghost use Rattle.std.specs.Prelude.{◌≡◌};
ghost use Rattle.ifr_opcodes.specs.code.Ops.{bytes_of};

use crate::codes::{FORM, FORM_SET, RULE};
use crate::row_view::RowView;
use hii_bytes::Guid;

/// A form set (UEFI 2.8, 33.3.8.3, EFI_IFR_FORM_SET), of 23 bytes and more.
pub type FormSetOp<'a> = RowView<'a, FORM_SET>;

impl<'a> FormSetOp<'a> {
    ghost use Rattle.ifr_opcodes.specs.Fields.{form_set_guid, form_set_title, form_set_help, form_set_flags};

    /// What names the form set.
    pub fn guid(self) -> Guid<'a>
        ensures { result.bytes.now ≡ form_set_guid (bytes_of self.entry.op) }
    {
        self.op.guid_at(2)
    }

    /// The string id of the title.
    pub fn title(self) -> u16
        ensures { result ≡ form_set_title (bytes_of self.entry.op) }
    {
        self.op.u16_at(18)
    }

    /// The string id of the help text.
    pub fn help(self) -> u16
        ensures { result ≡ form_set_help (bytes_of self.entry.op) }
    {
        self.op.u16_at(20)
    }

    /// The flags of the form set, which tell how many class GUIDs follow.
    pub fn flags(self) -> u8
        ensures { result ≡ form_set_flags (bytes_of self.entry.op) }
    {
        self.op.u8_at(22)
    }
}

/// A form (UEFI 2.8, 33.3.8.3, EFI_IFR_FORM), of 6 bytes and more.
pub type FormOp<'a> = RowView<'a, FORM>;

impl<'a> FormOp<'a> {
    ghost use Rattle.ifr_opcodes.specs.Fields.{form_id, form_title};

    /// The form's id.
    pub fn id(self) -> u16
        ensures { result ≡ form_id (bytes_of self.entry.op) }
    {
        self.op.u16_at(2)
    }

    /// The string id of the title.
    pub fn title(self) -> u16
        ensures { result ≡ form_title (bytes_of self.entry.op) }
    {
        self.op.u16_at(4)
    }
}

/// A rule, an expression with an id (UEFI 2.8, 33.3.8.3, EFI_IFR_RULE), of 3 bytes and more.
pub type RuleOp<'a> = RowView<'a, RULE>;

impl<'a> RuleOp<'a> {
    ghost use Rattle.ifr_opcodes.specs.Fields.{rule_id};

    /// The rule's id.
    pub fn id(self) -> u8
        ensures { result ≡ rule_id (bytes_of self.entry.op) }
    {
        self.op.u8_at(2)
    }
}

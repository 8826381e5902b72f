//! References to forms.

ghost use Rattle.std.specs.Prelude.{◌≡◌, option_map};
ghost use Rattle.ifr_opcodes.specs.code.Ops.{bytes_of, op_of};

use crate::codes::REF;
use crate::questions::QuestionOp;
use crate::row_view::RowView;
use hii_bytes::Guid;

/// A question that leads to a form (UEFI 2.8, 33.3.8.3, EFI_IFR_REF), of 13 bytes and more.
pub type RefOp<'a> = RowView<'a, REF>;

impl<'a> RefOp<'a> {
    ghost use Rattle.ifr_opcodes.specs.Fields.{ref_form_id, ref_question_id, ref_form_set, ref_device_path, ref_target};

    /// What it has as a question.
    #[tactic(auto, unfolding(crate::specs::Rows::is_question_number, browser_rules::specs::Opcodes::row_of))]
    pub fn question(self) -> QuestionOp<'a>
        ensures { op_of result.op ≡ op_of self.entry.op }
    {
        QuestionOp { op: self.op }
    }

    /// The id of the form, in opcodes of 15 bytes and more.
    pub fn form_id(self) -> Option<u16>
        ensures { result ≡ ref_form_id (bytes_of self.entry.op) }
    {
        self.op.u16_where(13)
    }

    /// The id of the question in that form, in opcodes of 17 bytes and more.
    pub fn question_id(self) -> Option<u16>
        ensures { result ≡ ref_question_id (bytes_of self.entry.op) }
    {
        self.op.u16_where(15)
    }

    /// What names the form set, in opcodes of 33 bytes and more.
    pub fn form_set(self) -> Option<Guid<'a>>
        ensures { option_map (λ guid. guid.bytes.now) result
            ≡ ref_form_set (bytes_of self.entry.op) }
    {
        if self.op.len() < 33 {
            return None;
        }
        Some(self.op.guid_at(17))
    }

    /// The string id of the device's path, in opcodes of 35 bytes and more.
    pub fn device_path(self) -> Option<u16>
        ensures { result ≡ ref_device_path (bytes_of self.entry.op) }
    {
        self.op.u16_where(33)
    }

    /// The id of the form of this form set to which it leads: that of an opcode of 15 to 32 bytes, where it is not 0.
    pub fn target(self) -> Option<u16>
        ensures { result ≡ ref_target (bytes_of self.entry.op) }
    {
        if self.op.len() > 32 {
            return None;
        }
        self.form_id().filter(|id| *id != 0)
    }
}

//! Questions for a list.

ghost use Rattle.std.specs.Prelude.{◌≡◌, ◌≤◌, length};
ghost use Rattle.ifr_opcodes.specs.declared.codes.TheConstants.{ORDERED_LIST};
ghost use Rattle.ifr_opcodes.specs.code.Ops.{bytes_of, op_of};

use crate::codes::ORDERED_LIST;
use crate::op::Op;
use crate::questions::QuestionOp;
use hii_bytes::Fault;

/// The flag of a list in which no value stands twice (EFI_IFR_UNIQUE_SET).
const UNIQUE_SET: u8 = 0x01;

/// The flag of a list that may not be empty (EFI_IFR_NO_EMPTY_SET).
const NO_EMPTY_SET: u8 = 0x02;

/// A question for a list of values of its options (UEFI 2.8, 33.3.8.3, EFI_IFR_ORDERED_LIST).
#[derive(Clone, Copy)]
pub struct OrderedListOp<'a> {
    pub op: Op<'a>,
    pub ghost coded: { op.code ≡ ORDERED_LIST },
    pub ghost sized: { 15 ≤ length (bytes_of op) },
}

impl<'a> OrderedListOp<'a> {
    ghost use Rattle.ifr_opcodes.specs.Fields.{ordered_list_containers, ordered_list_flags, is_unique_set, has_no_empty_set};
    ghost use Rattle.ifr_opcodes.specs.Rows.{is_row};
    ghost use Rattle.ifr_opcodes.specs.code.Views.{Reads};

    /// Another opcode is refused by OpOutside, one of less than 15 bytes by OpSize, each at its place.
    pub fn read(op: Op<'a>) -> Result<OrderedListOp<'a>, Fault>
        ensures { Reads (is_row ORDERED_LIST) (λ view. view.op) op.entry result }
    {
        op.check_row(ORDERED_LIST)?;
        Ok(OrderedListOp { op })
    }

    /// What it has as a question.
    #[tactic(auto, unfolding(crate::specs::Rows::is_question_number, browser_rules::specs::Opcodes::row_of))]
    pub fn question(self) -> QuestionOp<'a>
        ensures { op_of result.op ≡ op_of self.entry.op }
    {
        QuestionOp { op: self.op }
    }

    /// How many values the list has at most.
    pub fn max_containers(self) -> u8
        ensures { result ≡ ordered_list_containers (bytes_of self.entry.op) }
    {
        self.op.u8_at(13)
    }

    /// The flags of the ORDERED_LIST.
    pub fn flags(self) -> u8
        ensures { result ≡ ordered_list_flags (bytes_of self.entry.op) }
    {
        self.op.u8_at(14)
    }

    /// Whether no value may stand in the list twice.
    pub fn is_unique_set(self) -> bool
        ensures { result ≡ is_unique_set (bytes_of self.entry.op) }
    {
        self.flags() & UNIQUE_SET != 0
    }

    /// Whether the list may not be empty.
    pub fn has_no_empty_set(self) -> bool
        ensures { result ≡ has_no_empty_set (bytes_of self.entry.op) }
    {
        self.flags() & NO_EMPTY_SET != 0
    }
}

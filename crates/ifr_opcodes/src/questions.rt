//! Statements and questions.

ghost use Rattle.std.specs.Prelude.{◌≡◌, ◌≤◌, length, true};
ghost use Rattle.ifr_opcodes.specs.declared.codes.TheConstants.{CHECKBOX};
ghost use Rattle.ifr_opcodes.specs.Opcode.{number};
ghost use Rattle.ifr_opcodes.specs.code.Ops.{bytes_of, op_of};
ghost use Rattle.ifr_opcodes.specs.Rows.{is_question_number, is_statement_number};

use crate::codes::CHECKBOX;
use crate::op::Op;
use crate::statements::{is_question, is_statement};
use hii_bytes::{Cause, Fault};

/// The flag of a question that may not be changed (UEFI 2.8, 33.3.8.2.2, EFI_IFR_FLAG_READ_ONLY).
const READ_ONLY: u8 = 0x01;

/// The flag of a checkbox whose default is true (UEFI 2.8, 33.3.8.3, EFI_IFR_CHECKBOX_DEFAULT).
const CHECKBOX_DEFAULT: u8 = 0x01;

/// The flag of a checkbox whose default of manufacturing is true (UEFI 2.8, 33.3.8.3, EFI_IFR_CHECKBOX_DEFAULT_MFG).
const CHECKBOX_DEFAULT_MFG: u8 = 0x02;

/// What the opcodes of all statements have (UEFI 2.8, 33.3.8.2.3 EFI_IFR_STATEMENT_HEADER).
#[derive(Clone, Copy)]
pub struct StatementOp<'a> {
    pub op: Op<'a>,
    pub ghost coded: { is_statement_number op.code ≡ true },
    pub ghost sized: { 6 ≤ length (bytes_of op) },
}

impl<'a> StatementOp<'a> {
    ghost use Rattle.ifr_opcodes.specs.Fields.{statement_prompt, statement_help};
    ghost use Rattle.ifr_opcodes.specs.code.Views.{Reads};

    /// An opcode that is no statement is refused by OpOutside, one that is shorter than its fields by OpSize, each at its
    /// place.
    #[tactic(auto, using(crate::proofs::StatementLemmas::statement_row))]
    pub fn read(op: Op<'a>) -> Result<StatementOp<'a>, Fault>
        ensures { Reads (λ op. is_statement_number (number op)) (λ view. view.op) op.entry result }
    {
        if !is_statement(op.code) {
            return Err(op.fault(Cause::OpOutside));
        }
        op.check_size()?;
        Ok(StatementOp { op })
    }

    /// The string id of the prompt.
    pub fn prompt(self) -> u16
        ensures { result ≡ statement_prompt (bytes_of self.entry.op) }
    {
        self.op.u16_at(2)
    }

    /// The string id of the help text.
    pub fn help(self) -> u16
        ensures { result ≡ statement_help (bytes_of self.entry.op) }
    {
        self.op.u16_at(4)
    }
}

/// What the opcodes of all questions have (UEFI 2.8, 33.3.8.2.2 EFI_IFR_QUESTION_HEADER).
#[derive(Clone, Copy)]
pub struct QuestionOp<'a> {
    pub op: Op<'a>,
    pub ghost coded: { is_question_number op.code ≡ true },
    pub ghost sized: { 13 ≤ length (bytes_of op) },
}

impl<'a> QuestionOp<'a> {
    ghost use Rattle.ifr_opcodes.specs.Fields.{question_id, question_store, question_offset, question_flags, is_read_only};
    ghost use Rattle.ifr_opcodes.specs.code.Views.{Reads};

    /// An opcode that is no question is refused by OpOutside, one that is shorter than its fields by OpSize, each at its
    /// place.
    #[tactic(auto, using(crate::proofs::StatementLemmas::question_row))]
    pub fn read(op: Op<'a>) -> Result<QuestionOp<'a>, Fault>
        ensures { Reads (λ op. is_question_number (number op)) (λ view. view.op) op.entry result }
    {
        if !is_question(op.code) {
            return Err(op.fault(Cause::OpOutside));
        }
        op.check_size()?;
        Ok(QuestionOp { op })
    }

    /// What it has as a statement.
    #[tactic(auto, using(crate::proofs::StatementLemmas::question_is_statement))]
    pub fn statement(self) -> StatementOp<'a>
        ensures { op_of result.op ≡ op_of self.entry.op }
    {
        StatementOp { op: self.op }
    }

    /// The question's id, or 0.
    pub fn id(self) -> u16
        ensures { result ≡ question_id (bytes_of self.entry.op) }
    {
        self.op.u16_at(6)
    }

    /// The id of the store that holds its value, or 0.
    pub fn store(self) -> u16
        ensures { result ≡ question_store (bytes_of self.entry.op) }
    {
        self.op.u16_at(8)
    }

    /// The offset of its value in the store, in bytes.
    pub fn offset(self) -> u16
        ensures { result ≡ question_offset (bytes_of self.entry.op) }
    {
        self.op.u16_at(10)
    }

    /// The flags of all questions.
    pub fn flags(self) -> u8
        ensures { result ≡ question_flags (bytes_of self.entry.op) }
    {
        self.op.u8_at(12)
    }

    /// Whether it may not be changed.
    pub fn is_read_only(self) -> bool
        ensures { result ≡ is_read_only (bytes_of self.entry.op) }
    {
        self.flags() & READ_ONLY != 0
    }
}

/// A question with two answers (UEFI 2.8, 33.3.8.3, EFI_IFR_CHECKBOX).
#[derive(Clone, Copy)]
pub struct CheckboxOp<'a> {
    pub op: Op<'a>,
    pub ghost coded: { op.code ≡ CHECKBOX },
    pub ghost sized: { 14 ≤ length (bytes_of op) },
}

impl<'a> CheckboxOp<'a> {
    ghost use Rattle.ifr_opcodes.specs.Fields.{checkbox_flags, is_default_checkbox, is_manufacturing_checkbox};
    ghost use Rattle.ifr_opcodes.specs.Rows.{is_row};
    ghost use Rattle.ifr_opcodes.specs.code.Views.{Reads};

    /// Another opcode is refused by OpOutside, one of less than 14 bytes by OpSize, each at its place.
    pub fn read(op: Op<'a>) -> Result<CheckboxOp<'a>, Fault>
        ensures { Reads (is_row CHECKBOX) (λ view. view.op) op.entry result }
    {
        op.check_row(CHECKBOX)?;
        Ok(CheckboxOp { op })
    }

    /// What it has as a question.
    #[tactic(auto, unfolding(crate::specs::Rows::is_question_number, browser_rules::specs::Opcodes::row_of))]
    pub fn question(self) -> QuestionOp<'a>
        ensures { op_of result.op ≡ op_of self.entry.op }
    {
        QuestionOp { op: self.op }
    }

    /// The flags of a checkbox, which tell its defaults.
    pub fn flags(self) -> u8
        ensures { result ≡ checkbox_flags (bytes_of self.entry.op) }
    {
        self.op.u8_at(13)
    }

    /// Whether its default is true.
    pub fn is_default(self) -> bool
        ensures { result ≡ is_default_checkbox (bytes_of self.entry.op) }
    {
        self.flags() & CHECKBOX_DEFAULT != 0
    }

    /// Whether its default of manufacturing is true.
    pub fn is_manufacturing_default(self) -> bool
        ensures { result ≡ is_manufacturing_checkbox (bytes_of self.entry.op) }
    {
        self.flags() & CHECKBOX_DEFAULT_MFG != 0
    }
}

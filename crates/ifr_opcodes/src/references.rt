//! References to questions and to rules.

ghost use Rattle.std.specs.Prelude.{◌≡◌, ◌≤◌, length};
ghost use Rattle.ifr_opcodes.specs.declared.codes.TheConstants.{QUESTION_REF1, RULE_REF};
ghost use Rattle.ifr_opcodes.specs.code.Ops.{bytes_of};

use crate::op::Op;

/// A question's value (UEFI 2.8, 33.3.8.3, EFI_IFR_QUESTION_REF1).
#[derive(Clone, Copy)]
pub struct QuestionRefOp<'a> {
    pub op: Op<'a>,
    pub ghost coded: { op.code ≡ QUESTION_REF1 },
    pub ghost sized: { 4 ≤ length (bytes_of op) },
}

impl<'a> QuestionRefOp<'a> {
    ghost use Rattle.ifr_opcodes.specs.Fields.{question_ref_question};

    /// The question's id.
    pub fn question(self) -> u16
        ensures { result ≡ question_ref_question (bytes_of self.entry.op) }
    {
        self.op.u16_at(2)
    }
}

/// A rule's value (UEFI 2.8, 33.3.8.3, EFI_IFR_RULE_REF).
#[derive(Clone, Copy)]
pub struct RuleRefOp<'a> {
    pub op: Op<'a>,
    pub ghost coded: { op.code ≡ RULE_REF },
    pub ghost sized: { 3 ≤ length (bytes_of op) },
}

impl<'a> RuleRefOp<'a> {
    ghost use Rattle.ifr_opcodes.specs.Fields.{rule_ref_rule};

    /// The rule's id.
    pub fn rule(self) -> u8
        ensures { result ≡ rule_ref_rule (bytes_of self.entry.op) }
    {
        self.op.u8_at(2)
    }
}

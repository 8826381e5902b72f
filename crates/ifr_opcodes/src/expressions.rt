//! The operators of expressions.

ghost use Rattle.std.specs.Prelude.{◌≡◌, ◌+◌, ◌≤◌, length, true, false};
ghost use Rattle.ifr_opcodes.specs.declared.codes.TheConstants.{RULE_REF, THIS};
ghost use Rattle.ifr_opcodes.specs.code.Codes.{constant_code, unary_code, binary_code};
ghost use Rattle.browser_rules.specs.Words.{is_among};
ghost use Rattle.ifr_opcodes.specs.Fields.{uints, uint_width};
ghost use Rattle.ifr_opcodes.specs.code.Ops.{bytes_of};

use crate::codes::{
    BITWISE_NOT, EQ_ID_ID, EQ_ID_VAL, EQ_ID_VAL_LIST, FALSE, NOT, ONE, ONES, QUESTION_REF1,
    RULE_REF, THIS, TRUE, UINT8, UINT16, UINT32, UINT64, UNDEFINED, ZERO,
};
use crate::eq_id_id::EqIdIdOp;
use crate::eq_id_val::EqIdValOp;
use crate::eq_id_val_list::EqIdValListOp;
use crate::op::Op;
use crate::operators::{Binary, Constant, Unary, is_operator};
use crate::references::{QuestionRefOp, RuleRefOp};
use crate::rows::least_len;
use hii_bytes::{Cause, Fault};

/// An operator of an expression, by how many operands it takes.
#[derive(Clone, Copy)]
pub enum ExprOp<'a> {
    /// None.
    Leaf(LeafOp<'a>),
    /// None; its value is that of a rule.
    RuleRef(RuleRefOp<'a>),
    /// One.
    Unary(UnaryOp<'a>),
    /// Two.
    Binary(BinaryOp<'a>),
}

impl<'a> ExprOp<'a> {
    ghost use Rattle.ifr_opcodes.specs.Opcode.{number};
    ghost use Rattle.ifr_opcodes.specs.Rows.{is_operator, is_short};
    ghost use Rattle.ifr_opcodes.specs.code.Ops.{op_of};
    ghost use Rattle.ifr_opcodes.specs.code.Views.{Reads, operator};

    /// An opcode that is no operator is refused by OpOutside, one that is shorter than its fields by OpSize, each at its
    /// place.
    pub fn read(op: Op<'a>) -> Result<ExprOp<'a>, Fault>
        ensures { Reads (λ op. is_operator (number op)) operator op.entry result }
    {
        if !is_operator(op.code) {
            return Err(op.fault(Cause::OpOutside));
        }
        op.check_size()?;
        Ok(ExprOp::of(op))
    }

    /// The view of an operator's opcode that has all its fields.
    #[inline(always)]
    pub fn of(op: Op<'a>) -> ExprOp<'a>
        requires known { is_operator op.code ≡ true }
        requires sized { is_short (bytes_of op) ≡ false }
        ensures { op_of (operator result) ≡ op_of op.entry }
    {
        // The views below ask for the bytes of their fields.
        prove!(least_len(op) <= op.len());
        match op.code {
            EQ_ID_VAL => ExprOp::Leaf(LeafOp::EqIdVal(EqIdValOp { op })),
            EQ_ID_ID => ExprOp::Leaf(LeafOp::EqIdId(EqIdIdOp { op })),
            EQ_ID_VAL_LIST => ExprOp::Leaf(LeafOp::EqIdValList(EqIdValListOp { op })),
            QUESTION_REF1 => ExprOp::Leaf(LeafOp::QuestionRef(QuestionRefOp { op })),
            UINT8 => ExprOp::Leaf(LeafOp::Uint(UintOp { op })),
            UINT16 => ExprOp::Leaf(LeafOp::Uint(UintOp { op })),
            UINT32 => ExprOp::Leaf(LeafOp::Uint(UintOp { op })),
            UINT64 => ExprOp::Leaf(LeafOp::Uint(UintOp { op })),
            THIS => ExprOp::Leaf(LeafOp::This(ThisOp { op })),
            RULE_REF => ExprOp::RuleRef(RuleRefOp { op }),
            TRUE | FALSE | ZERO | ONE | ONES | UNDEFINED => {
                ExprOp::Leaf(LeafOp::Constant(ConstantOp {
                    op,
                    constant: Constant::of(op.code),
                }))
            }
            NOT | BITWISE_NOT => ExprOp::Unary(UnaryOp {
                op,
                operator: Unary::of(op.code),
            }),
            _ => ExprOp::Binary(BinaryOp {
                op,
                operator: Binary::of(op.code),
            }),
        }
    }

    /// The opcode of the operator.
    pub fn op(self) -> Op<'a>
        ensures { op_of result ≡ op_of (operator self.entry) }
    {
        match self {
            ExprOp::Leaf(leaf) => leaf.op(),
            ExprOp::RuleRef(view) => view.op,
            ExprOp::Unary(view) => view.op,
            ExprOp::Binary(view) => view.op,
        }
    }
}

/// An operator that takes no operands and is no reference to a rule.
#[derive(Clone, Copy)]
pub enum LeafOp<'a> {
    /// EQ_ID_VAL: whether a question's answer is a number.
    EqIdVal(EqIdValOp<'a>),
    /// EQ_ID_ID: whether two questions have the same answer.
    EqIdId(EqIdIdOp<'a>),
    /// EQ_ID_VAL_LIST: whether a question's answer is among numbers.
    EqIdValList(EqIdValListOp<'a>),
    /// QUESTION_REF1: a question's answer.
    QuestionRef(QuestionRefOp<'a>),
    /// UINT8, UINT16, UINT32 or UINT64: a number.
    Uint(UintOp<'a>),
    /// TRUE, FALSE, ZERO, ONE, ONES or UNDEFINED: a value that stands in the opcode's number.
    Constant(ConstantOp<'a>),
    /// THIS: the answer of the question in whose scope it stands.
    This(ThisOp<'a>),
}

impl<'a> LeafOp<'a> {
    ghost use Rattle.ifr_opcodes.specs.code.Ops.{op_of};
    ghost use Rattle.ifr_opcodes.specs.code.Views.{leaf_operator};

    /// The opcode of the operator.
    pub fn op(self) -> Op<'a>
        ensures { op_of result ≡ op_of (leaf_operator self.entry) }
    {
        match self {
            LeafOp::EqIdVal(view) => view.op,
            LeafOp::EqIdId(view) => view.op,
            LeafOp::EqIdValList(view) => view.op,
            LeafOp::QuestionRef(view) => view.op,
            LeafOp::Uint(view) => view.op,
            LeafOp::Constant(view) => view.op,
            LeafOp::This(view) => view.op,
        }
    }
}

/// A number of 1, 2, 4 or 8 bytes (UEFI 2.8, 33.3.8.3, EFI_IFR_UINT8 to EFI_IFR_UINT64).
#[derive(Clone, Copy)]
pub struct UintOp<'a> {
    pub op: Op<'a>,
    pub ghost coded: { is_among op.code uints ≡ true },
    pub ghost sized: { 2 + uint_width op.code ≤ length (bytes_of op) },
}

impl<'a> UintOp<'a> {
    ghost use Rattle.ifr_opcodes.specs.Fields.{uint_value};

    /// The number.
    pub fn value(self) -> u64
        ensures { result ≡ uint_value (bytes_of self.entry.op) }
    {
        match self.op.code {
            UINT8 => self.op.number_at(2, 1),
            UINT16 => self.op.number_at(2, 2),
            UINT32 => self.op.number_at(2, 4),
            _ => self.op.number_at(2, 8),
        }
    }
}

/// A value that stands in its number (UEFI 2.8, 33.3.8.3, EFI_IFR_TRUE and the like).
#[derive(Clone, Copy)]
pub struct ConstantOp<'a> {
    pub op: Op<'a>,
    pub constant: Constant,
    pub ghost coded: { constant_code constant ≡ op.code },
}

/// The value of the question in whose scope it stands (UEFI 2.8, 33.3.8.3, EFI_IFR_THIS).
#[derive(Clone, Copy)]
pub struct ThisOp<'a> {
    pub op: Op<'a>,
    pub ghost coded: { op.code ≡ THIS },
}

/// An operator that takes one operand (UEFI 2.8, 33.3.8.3, EFI_IFR_NOT and EFI_IFR_BITWISE_NOT).
#[derive(Clone, Copy)]
pub struct UnaryOp<'a> {
    pub op: Op<'a>,
    pub operator: Unary,
    pub ghost coded: { unary_code operator ≡ op.code },
}

/// An operator that takes two operands, of which the left one stands first (UEFI 2.8, 33.3.8.3, EFI_IFR_AND and the like).
#[derive(Clone, Copy)]
pub struct BinaryOp<'a> {
    pub op: Op<'a>,
    pub operator: Binary,
    pub ghost coded: { binary_code operator ≡ op.code },
}

//! The operators of expressions by how many operands they take.

ghost use Rattle.std.specs.Prelude.{◌≡◌, true};
ghost use Rattle.browser_rules.specs.Words.{is_among};
ghost use Rattle.ifr_opcodes.specs.ExpressionFields.{constants};
ghost use Rattle.ifr_opcodes.specs.Rows as rows;
ghost use Rattle.ifr_opcodes.specs.code.Codes.{constant_code, unary_code, binary_code};
ghost use Rattle.ifr_opcodes.specs.code.Tables.{with_one_operand, with_two_operands};

use crate::codes::{
    ADD, AND, BITWISE_AND, BITWISE_NOT, BITWISE_OR, DIVIDE, EQUAL, FALSE, GREATER_EQUAL,
    GREATER_THAN, LESS_EQUAL, LESS_THAN, MODULO, MULTIPLY, NOT, NOT_EQUAL, ONE, ONES, OR,
    SHIFT_LEFT, SHIFT_RIGHT, SUBTRACT, TRUE, UNDEFINED, ZERO,
};
use crate::role::Role;

/// How many operands the operator of a number takes, if it is one.
#[tactic(auto, using(crate::proofs::ColumnLemmas::operands_at))]
pub fn operands(code: u8) -> Option<usize>
    ensures { result ≡ rows.operands code }
{
    Role::of(code).operands()
}

/// Whether this is the number of an operator.
pub fn is_operator(code: u8) -> bool
    ensures { result ≡ rows.is_operator code }
{
    operands(code).is_some()
}

/// An operator whose value stands in its number (UEFI 2.8, 33.3.8.3, EFI_IFR_TRUE and the like).
#[derive(Clone, Copy, Debug, PartialEq, Eq)]
pub enum Constant {
    /// The Boolean true.
    True,
    /// The Boolean false.
    False,
    /// The number 0.
    Zero,
    /// The number 1.
    One,
    /// All bits set.
    Ones,
    /// No value.
    Undefined,
}

/// An operator that takes one operand.
#[derive(Clone, Copy, PartialEq, Eq)]
pub enum Unary {
    /// The other Boolean.
    Not,
    /// The number with all 64 bits turned.
    BitwiseNot,
}

/// An operator that takes two operands.
#[derive(Clone, Copy, PartialEq, Eq)]
pub enum Binary {
    /// Whether both Booleans are true.
    And,
    /// Whether one of two Booleans is true.
    Or,
    /// Whether two values are equal.
    Equal,
    /// Whether two values differ.
    NotEqual,
    /// Whether the left number is greater.
    GreaterThan,
    /// Whether the left number is greater or equal.
    GreaterEqual,
    /// Whether the left number is less.
    LessThan,
    /// Whether the left number is less or equal.
    LessEqual,
    /// The bits that both numbers have.
    BitwiseAnd,
    /// The bits that one of two numbers has.
    BitwiseOr,
    /// The left number's bits moved to the higher ones, by as many places as the right one says.
    ShiftLeft,
    /// The left number's bits moved to the lower ones, by as many places as the right one says.
    ShiftRight,
    /// The sum.
    Add,
    /// The left number less the right one.
    Subtract,
    /// The product.
    Multiply,
    /// The quotient.
    Divide,
    /// The rest of a division.
    Modulo,
}

impl Constant {
    // The constant of a number.
    #[inline(always)]
    pub(crate) fn of(code: u8) -> Constant
        requires { is_among code constants ≡ true }
        ensures { constant_code result ≡ code }
    {
        match code {
            TRUE => Constant::True,
            FALSE => Constant::False,
            ZERO => Constant::Zero,
            ONE => Constant::One,
            ONES => Constant::Ones,
            UNDEFINED => Constant::Undefined,
            _ => unreachable!(),
        }
    }
}

impl Unary {
    // The operator of a number that takes one operand.
    #[inline(always)]
    pub(crate) fn of(code: u8) -> Unary
        requires { is_among code with_one_operand ≡ true }
        ensures { unary_code result ≡ code }
    {
        match code {
            NOT => Unary::Not,
            BITWISE_NOT => Unary::BitwiseNot,
            _ => unreachable!(),
        }
    }
}

impl Binary {
    // The operator of a number that takes two operands.
    #[inline(always)]
    pub(crate) fn of(code: u8) -> Binary
        requires { is_among code with_two_operands ≡ true }
        ensures { binary_code result ≡ code }
    {
        match code {
            AND => Binary::And,
            OR => Binary::Or,
            EQUAL => Binary::Equal,
            NOT_EQUAL => Binary::NotEqual,
            GREATER_THAN => Binary::GreaterThan,
            GREATER_EQUAL => Binary::GreaterEqual,
            LESS_THAN => Binary::LessThan,
            LESS_EQUAL => Binary::LessEqual,
            BITWISE_AND => Binary::BitwiseAnd,
            BITWISE_OR => Binary::BitwiseOr,
            SHIFT_LEFT => Binary::ShiftLeft,
            SHIFT_RIGHT => Binary::ShiftRight,
            ADD => Binary::Add,
            SUBTRACT => Binary::Subtract,
            MULTIPLY => Binary::Multiply,
            DIVIDE => Binary::Divide,
            MODULO => Binary::Modulo,
            _ => unreachable!(),
        }
    }
}

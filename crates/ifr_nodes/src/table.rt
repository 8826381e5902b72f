//! What is known of an opcode by its number.

ghost use Rattle.std.specs.Prelude.{◌≡◌};
ghost use Rattle.ifr_opcodes.specs.code.Ops.{bytes_of};
ghost use Rattle.ifr_nodes.specs.Table as table;

use crate::columns::ROWS;
use crate::guards::is_guard;
use hii_bytes::number_at;
use ifr_opcodes::{
    DEFAULT, DEFAULTSTORE, FORM, LOCKED, ONE_OF_OPTION, Op, RULE, TYPE_OTHER, VALUE, is_condition,
    is_ignored, is_operator, is_statement, is_store,
};

/// Whether an opcode opens a scope.
#[derive(Clone, Copy, PartialEq, Eq)]
pub enum Scope {
    Always,
    Sometimes,
    Never,
    /// Only where it is the first of an expression.
    Outermost,
    /// Where it has a VALUE, and else not.
    WithValue,
}

/// What may stand in a scope.
#[derive(Clone, Copy, PartialEq, Eq)]
pub enum Class {
    OfFormSet,
    OfForm,
    /// Of a statement that is no question.
    OfText,
    /// Of a question without options.
    OfQuestion,
    /// Of a question with options.
    OfChoice,
    /// Of a guard among options.
    OfOptions,
    OfOption,
    OfExpression,
    /// What the scope begins with, and nothing else.
    OfNothing,
}

/// A row of the table of opcodes.
#[derive(Clone, Copy, PartialEq, Eq)]
pub struct OpcodeRow {
    /// Whether it opens a scope.
    pub scope: Scope,
    /// What may stand in its scope.
    pub class: Class,
}

/// The row of an opcode's number.
pub(crate) fn row_of(code: u8) -> Option<OpcodeRow>
    ensures { result ≡ table.row code }
{
    ROWS[usize::from(code)]
}

/// Whether an opcode of this number may stand in a scope of this class.
#[inline(always)]
pub fn admits(class: Class, code: u8) -> bool
    ensures { result ≡ table.admits class code }
{
    match class {
        Class::OfFormSet => {
            code == FORM
                || code == DEFAULTSTORE
                || is_store(code)
                || is_guard(code)
                || code == LOCKED
                || is_ignored(code)
        }
        Class::OfForm => {
            code == RULE
                || is_statement(code)
                || is_guard(code)
                || code == LOCKED
                || is_ignored(code)
        }
        Class::OfText => code == LOCKED || is_ignored(code),
        Class::OfQuestion => {
            code == DEFAULT || is_condition(code) || code == LOCKED || is_ignored(code)
        }
        Class::OfChoice => {
            code == ONE_OF_OPTION
                || is_guard(code)
                || code == DEFAULT
                || is_condition(code)
                || code == LOCKED
                || is_ignored(code)
        }
        Class::OfOptions => {
            code == ONE_OF_OPTION || is_guard(code) || code == LOCKED || is_ignored(code)
        }
        Class::OfOption => is_ignored(code),
        Class::OfExpression => is_operator(code),
        Class::OfNothing => false,
    }
}

/// Whether an opcode of this number begins with an expression.
pub fn wants_expression(code: u8) -> bool
    ensures { result ≡ table.wants_expression code }
{
    is_guard(code) || code == RULE || code == VALUE || is_condition(code)
}

/// Whether an opcode begins with a VALUE.
pub fn wants_value(op: Op) -> bool
    ensures { result ≡ table.wants_value (bytes_of op.entry) }
{
    // the Type stands behind the header and the default's id
    op.code == DEFAULT && number_at(op.body, 2, 1) == Some(u64::from(TYPE_OTHER))
}

/// What may stand in the scope of an opcode.
pub fn class_of(code: u8) -> Class
    ensures { result ≡ table.class_of (table.row code) }
{
    match row_of(code) {
        Some(row) => row.class,
        None => Class::OfNothing,
    }
}

/// What a guard in a scope of this class admits behind its condition.
pub fn guarded(class: Class) -> Class
    ensures { result ≡ table.guarded class }
{
    match class {
        Class::OfChoice => Class::OfOptions,
        _ => class,
    }
}

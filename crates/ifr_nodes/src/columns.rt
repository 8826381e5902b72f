//! What is known of the scopes of opcodes by their numbers: a column with an entry for each number of one byte, sixteen in a
//! line (UEFI 2.8, 33.3.8.3 Opcode Reference; which opcodes are known and what may stand where are own rules).

use crate::table::{Class, OpcodeRow, Scope};

/// No opcode is known.
const N: Option<OpcodeRow> = None;

/// FORM_SET.
const S: Option<OpcodeRow> = Some(OpcodeRow {
    scope: Scope::Always,
    class: Class::OfFormSet,
});

/// FORM.
const F: Option<OpcodeRow> = Some(OpcodeRow {
    scope: Scope::Always,
    class: Class::OfForm,
});

/// SUBTITLE, which heads others.
const H: Option<OpcodeRow> = Some(OpcodeRow {
    scope: Scope::Sometimes,
    class: Class::OfForm,
});

/// TEXT and RESET_BUTTON.
const T: Option<OpcodeRow> = Some(OpcodeRow {
    scope: Scope::Sometimes,
    class: Class::OfText,
});

/// Questions without options.
const Q: Option<OpcodeRow> = Some(OpcodeRow {
    scope: Scope::Sometimes,
    class: Class::OfQuestion,
});

/// Questions with options, choices.
const C: Option<OpcodeRow> = Some(OpcodeRow {
    scope: Scope::Sometimes,
    class: Class::OfChoice,
});

/// ONE_OF_OPTION.
const O: Option<OpcodeRow> = Some(OpcodeRow {
    scope: Scope::Sometimes,
    class: Class::OfOption,
});

/// DEFAULT.
const D: Option<OpcodeRow> = Some(OpcodeRow {
    scope: Scope::WithValue,
    class: Class::OfNothing,
});

/// Guards, conditions of questions, RULE and VALUE, which want an expression.
const W: Option<OpcodeRow> = Some(OpcodeRow {
    scope: Scope::Always,
    class: Class::OfNothing,
});

/// Stores, LOCKED and what else has no scope, a leaf.
const L: Option<OpcodeRow> = Some(OpcodeRow {
    scope: Scope::Never,
    class: Class::OfNothing,
});

/// Operators of expressions.
const E: Option<OpcodeRow> = Some(OpcodeRow {
    scope: Scope::Outermost,
    class: Class::OfExpression,
});

/// Whether an opcode opens a scope, and what may stand in it.
pub(crate) static ROWS: [Option<OpcodeRow>; 256] = [
    N, F, H, T, L, C, Q, Q, Q, O, W, L, Q, T, S, Q, // 0x00
    W, W, E, E, E, E, E, E, W, W, Q, Q, Q, L, W, L, // 0x10
    N, N, N, C, L, L, L, N, N, N, N, N, N, N, N, E, // 0x20
    E, E, E, E, E, E, E, E, E, E, E, E, E, E, E, E, // 0x30
    E, N, E, E, E, E, E, E, N, N, N, N, N, N, N, N, // 0x40
    N, N, E, E, E, E, N, N, E, N, W, D, L, N, N, L, // 0x50
    N, L, L, W, N, N, N, N, N, N, N, N, N, N, N, N, // 0x60
    N, N, N, N, N, N, N, N, N, N, N, N, N, N, N, N, // 0x70
    N, N, N, N, N, N, N, N, N, N, N, N, N, N, N, N, // 0x80
    N, N, N, N, N, N, N, N, N, N, N, N, N, N, N, N, // 0x90
    N, N, N, N, N, N, N, N, N, N, N, N, N, N, N, N, // 0xa0
    N, N, N, N, N, N, N, N, N, N, N, N, N, N, N, N, // 0xb0
    N, N, N, N, N, N, N, N, N, N, N, N, N, N, N, N, // 0xc0
    N, N, N, N, N, N, N, N, N, N, N, N, N, N, N, N, // 0xd0
    N, N, N, N, N, N, N, N, N, N, N, N, N, N, N, N, // 0xe0
    N, N, N, N, N, N, N, N, N, N, N, N, N, N, N, N, // 0xf0
];

//! What is known of opcodes by their numbers: columns with an entry for each number of one byte, sixteen in a line (UEFI 2.8,
//! 33.3.8.3 Opcode Reference; which opcodes are known is an own rule).

use crate::role::Role;

/// Not known.
const N: Role = Role::Unknown;

/// Known, and none of the following.
const K: Role = Role::Other;

/// A store.
const V: Role = Role::Store;

/// A condition that a question has beside its options.
const C: Role = Role::Condition;

/// An opcode of no effect.
const I: Role = Role::Ignored;

/// A statement that is no question.
const S: Role = Role::Statement;

/// A question.
const Q: Role = Role::Question;

/// An operator that takes no operand, a leaf of its expression.
const L: Role = Role::Leaf;

/// An operator that takes one operand.
const U: Role = Role::Unary;

/// An operator that takes two operands.
const B: Role = Role::Binary;

/// How many bytes the fields of an opcode take, with the two in front of them, and without what stands behind them; 2 where
/// no opcode is known.
pub(crate) static LENGTHS: [u8; 256] = [
    2, 6, 7, 8, 2, 14, 14, 14, 17, 6, 2, 2, 13, 8, 23, 13, // 0x00
    4, 4, 6, 6, 6, 2, 2, 2, 3, 2, 14, 14, 16, 2, 2, 2, // 0x10
    2, 2, 2, 15, 22, 20, 26, 2, 2, 2, 2, 2, 2, 2, 2, 2, // 0x20
    2, 2, 2, 2, 2, 2, 2, 2, 2, 2, 2, 2, 2, 2, 2, 3, // 0x30
    4, 2, 3, 4, 6, 10, 2, 2, 2, 2, 2, 2, 2, 2, 2, 2, // 0x40
    2, 2, 2, 2, 2, 2, 2, 2, 2, 2, 2, 5, 6, 2, 2, 2, // 0x50
    2, 2, 2, 5, 2, 2, 2, 2, 2, 2, 2, 2, 2, 2, 2, 2, // 0x60
    2, 2, 2, 2, 2, 2, 2, 2, 2, 2, 2, 2, 2, 2, 2, 2, // 0x70
    2, 2, 2, 2, 2, 2, 2, 2, 2, 2, 2, 2, 2, 2, 2, 2, // 0x80
    2, 2, 2, 2, 2, 2, 2, 2, 2, 2, 2, 2, 2, 2, 2, 2, // 0x90
    2, 2, 2, 2, 2, 2, 2, 2, 2, 2, 2, 2, 2, 2, 2, 2, // 0xa0
    2, 2, 2, 2, 2, 2, 2, 2, 2, 2, 2, 2, 2, 2, 2, 2, // 0xb0
    2, 2, 2, 2, 2, 2, 2, 2, 2, 2, 2, 2, 2, 2, 2, 2, // 0xc0
    2, 2, 2, 2, 2, 2, 2, 2, 2, 2, 2, 2, 2, 2, 2, 2, // 0xd0
    2, 2, 2, 2, 2, 2, 2, 2, 2, 2, 2, 2, 2, 2, 2, 2, // 0xe0
    2, 2, 2, 2, 2, 2, 2, 2, 2, 2, 2, 2, 2, 2, 2, 2, // 0xf0
];

/// What an opcode is.
pub(crate) static ROLES: [Role; 256] = [
    N, K, S, S, I, Q, Q, Q, Q, K, K, K, Q, S, K, Q, // 0x00
    C, C, L, L, L, B, B, U, K, K, Q, Q, Q, I, K, I, // 0x10
    N, N, N, Q, V, V, V, N, N, N, N, N, N, N, N, B, // 0x20
    B, B, B, B, B, B, B, U, B, B, B, B, B, B, B, L, // 0x30
    L, N, L, L, L, L, L, L, N, N, N, N, N, N, N, N, // 0x40
    N, N, L, L, L, L, N, N, L, N, K, K, K, N, N, I, // 0x50
    N, I, I, C, N, N, N, N, N, N, N, N, N, N, N, N, // 0x60
    N, N, N, N, N, N, N, N, N, N, N, N, N, N, N, N, // 0x70
    N, N, N, N, N, N, N, N, N, N, N, N, N, N, N, N, // 0x80
    N, N, N, N, N, N, N, N, N, N, N, N, N, N, N, N, // 0x90
    N, N, N, N, N, N, N, N, N, N, N, N, N, N, N, N, // 0xa0
    N, N, N, N, N, N, N, N, N, N, N, N, N, N, N, N, // 0xb0
    N, N, N, N, N, N, N, N, N, N, N, N, N, N, N, N, // 0xc0
    N, N, N, N, N, N, N, N, N, N, N, N, N, N, N, N, // 0xd0
    N, N, N, N, N, N, N, N, N, N, N, N, N, N, N, N, // 0xe0
    N, N, N, N, N, N, N, N, N, N, N, N, N, N, N, N, // 0xf0
];

//! How many bytes an opcode has at least, and which opcodes are known.

ghost use Rattle.std.specs.Prelude.{◌≡◌, ◌+◌, ◌*◌, nat_lt, if◌then◌else◌, length};
ghost use Rattle.ifr_opcodes.specs.Rows as rows;
ghost use Rattle.browser_rules.specs.Opcodes.{type_width};
ghost use Rattle.ifr_opcodes.specs.Fields as fields;
ghost use Rattle.ifr_opcodes.specs.code.Ops.{bytes_of};
ghost use Rattle.ifr_opcodes.specs.code.Tables as tables;

use crate::codes::{
    DEFAULT, EQ_ID_VAL_LIST, GUID, NUMERIC, ONE_OF, ONE_OF_OPTION, VARSTORE, VARSTORE_EFI,
};
use crate::columns::LENGTHS;
use crate::kinds::{TYPE_BOOLEAN, TYPE_REF, kind_width};
use crate::numbers::width_of_flags;
use crate::op::Op;
use crate::role::Role;
use crate::stores::before_nul;

// How many bytes an opcode has at least: those of its fields and the two in front of them (UEFI 2.8, 33.3.8.3).
#[inline(always)]
pub(crate) fn least_len(op: Op) -> usize
    ensures { result ≡ tables.least_length (bytes_of op.entry) }
{
    match op.code {
        VARSTORE => 23 + before_nul(op.bytes_from(22)).len(),
        VARSTORE_EFI => 27 + before_nul(op.bytes_from(26)).len(),
        NUMERIC => numeric_len(op),
        ONE_OF => numeric_len(op),
        ONE_OF_OPTION => option_len(op),
        DEFAULT => default_len(op),
        EQ_ID_VAL_LIST => list_len(op),
        code => fields_len(code),
    }
}

// How many bytes the fields of an opcode take, with the two in front of them.
fn fields_len(code: u8) -> usize
    ensures { result ≡ tables.fields_length code }
{
    usize::from(LENGTHS[usize::from(code)])
}

// The least length of a question of numbers, whose flags tell how many bytes each has.
fn numeric_len(op: Op) -> usize
    ensures { result ≡ (if nat_lt (length (bytes_of op.entry)) 14 then 14
        else 14 + 3 * fields.numeric_width (bytes_of op.entry)) }
{
    if op.len() < 14 {
        return 14;
    }
    14 + 3 * width_of_flags(op.u8_at(13))
}

// The least length of an option, whose Type tells how many bytes its value has.
fn option_len(op: Op) -> usize
    ensures { result ≡ (if nat_lt (length (bytes_of op.entry)) 6 then 6
        else 6 + type_width (fields.option_kind (bytes_of op.entry))) }
{
    if op.len() < 6 {
        return 6;
    }
    6 + kind_width(op.u8_at(5))
}

// The least length of a default, whose Type tells how many bytes its value has.
fn default_len(op: Op) -> usize
    ensures { result ≡ (if nat_lt (length (bytes_of op.entry)) 5 then 5
        else 5 + type_width (fields.default_kind (bytes_of op.entry))) }
{
    if op.len() < 5 {
        return 5;
    }
    5 + kind_width(op.u8_at(4))
}

// The least length of an EQ_ID_VAL_LIST, whose values stand behind their count.
fn list_len(op: Op) -> usize
    ensures { result ≡ (if nat_lt (length (bytes_of op.entry)) 6 then 6
        else 6 + 2 * fields.eq_id_val_list_count (bytes_of op.entry)) }
{
    if op.len() < 6 {
        return 6;
    }
    6 + 2 * usize::from(op.u16_at(4))
}

/// Whether an opcode lacks bytes of its fields.
#[tactic(auto, using(crate::proofs::SizeLemmas::short))]
#[inline(always)]
pub fn is_short(op: Op) -> bool
    ensures { result ≡ rows.is_short (bytes_of op.entry) }
{
    op.len() < least_len(op)
}

/// Whether opcodes of this number are known.
#[tactic(auto, using(crate::proofs::ColumnLemmas::known_at))]
pub fn is_listed(code: u8) -> bool
    ensures { result ≡ rows.is_listed code }
{
    Role::of(code).is_known()
}

/// Whether an opcode of a known number is refused all the same: a GUID with Scope, a VARSTORE_EFI of 24 bytes, an option
/// whose Type is neither a number nor a Boolean, a default whose Type is not defined.
#[tactic(auto, using(crate::proofs::RowLemmas::refused))]
pub(crate) fn is_left_out(op: Op) -> bool
    ensures { result ≡ rows.is_left_out (bytes_of op.entry) }
{
    match op.code {
        GUID => op.scope,
        VARSTORE_EFI => op.len() == 24,
        ONE_OF_OPTION => op.len() >= 6 && op.u8_at(5) > TYPE_BOOLEAN,
        DEFAULT => op.len() >= 5 && op.u8_at(4) > TYPE_REF,
        _ => false,
    }
}

/// Whether an opcode is refused by OpOutside: its number is not known, or it is left out.
#[tactic(auto, using(crate::proofs::RowLemmas::outside))]
#[inline(always)]
pub fn is_outside(op: Op) -> bool
    ensures { result ≡ rows.is_outside (bytes_of op.entry) }
{
    !is_listed(op.code) || is_left_out(op)
}

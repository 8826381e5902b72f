//! What is known of an opcode.

ghost use Rattle.std.specs.Prelude.{◌≡◌, ◌+◌, ◌<◌, ◌≤◌, ◌^◌, ◌++◌, ◌∷◌, [], drop, length, map};
ghost use Rattle.hii_bytes.specs.Numbers.{number_in};
ghost use Rattle.opcode_audit.specs.Facts.{facts_in, id_in, name_of_store, numbers, opcode_facts, string_ids, tail_of, typed, values_listed};
ghost use Rattle.opcode_audit.specs.code.Columns.{bytes_in, fact_of, head_of, listed, size_of, value_of};

use crate::field::{Field, Value, Width};
use crate::layouts::{Head, Layout, QUESTION, STATEMENT, layout_of};
use crate::names::Name;
use crate::standard::{VALUE8, VALUE16, VALUE32, VALUE64};
use arrayvec::ArrayVec;
use ifr_opcodes::{
    DEFAULT, EQ_ID_VAL_LIST, NUMERIC, ONE_OF, ONE_OF_OPTION, TYPE_BOOLEAN, TYPE_NUM_SIZE_8,
    TYPE_NUM_SIZE_16, TYPE_NUM_SIZE_32, TYPE_NUM_SIZE_64, TYPE_STRING, VARSTORE, VARSTORE_EFI,
};

/// A field of an opcode whose bytes are there, and what it holds.
#[derive(Clone, Copy, Default)]
pub(crate) struct Fact<'o> {
    pub name: Name,
    pub value: Value<'o>,
}

/// What is known of an opcode: six fields at most that its kind has, four of its number, and three behind them.
pub(crate) type Facts<'o> = ArrayVec<Fact<'o>, 13>;

/// The fields of an opcode that are there, one behind the other.
pub(crate) fn facts_of(opcode: &[u8]) -> Facts<'_>
    requires { 2 ≤ length opcode.now }
    ensures { map fact_of result.items ≡ opcode_facts opcode.entry.now }
{
    let layout = layout_of(opcode[0]);
    let own = [layout.first, layout.second, layout.third, layout.fourth];
    let mut facts = ArrayVec::new();
    let rest = push_head(layout.head, &opcode[2..], &mut facts);
    let rest = push_fields(&own, rest, &mut facts);
    push_fields(&tail_of(opcode), rest, &mut facts);
    facts
}

/// The string ids that the fields of an opcode of two bytes or more hold, as far as their bytes are there, one behind the other.
pub fn string_ids(opcode: &[u8]) -> ArrayVec<u16, 13>
    requires { 2 ≤ length opcode.now }
    ensures { result.items ≡ string_ids opcode.now }
{
    let facts = facts_of(opcode);
    let mut ids = ArrayVec::new();
    for fact in facts.as_slice() {
        if let Some(id) = id_in(fact.value) {
            ids.push(id);
        }
    }
    ids
}

// The string id that a field holds, if it is one.
fn id_in(value: Value<'_>) -> Option<u16>
    ensures { result ≡ id_in (value_of value.entry) }
{
    match value {
        Value::Id(id) => Some(id),
        _ => None,
    }
}

// Adds the fields of a kind that are there, and gives the bytes behind them.
fn push_head<'o>(head: Head, bytes: &'o [u8], facts: &mut Facts<'o>) -> &'o [u8]
    requires { length facts.old.items ≤ 7 }
    ensures added { map fact_of facts.new.items
        ≡ map fact_of facts.old.items ++ facts_in (head_of head) bytes.entry.now }
    ensures behind { result.now ≡ drop (size_of (head_of head)) bytes.entry.now }
    ensures most { length facts.new.items ≤ length facts.old.items + 6 }
{
    match head {
        Head::Nothing => bytes,
        Head::Statement => push_fields(&STATEMENT, bytes, facts),
        Head::Question => push_fields(&QUESTION, bytes, facts),
    }
}

// Adds the fields that are there, one behind the other, and gives the bytes behind them.
fn push_fields<'o>(fields: &[Option<Field>], bytes: &'o [u8], facts: &mut Facts<'o>) -> &'o [u8]
    requires { length facts.old.items + length fields.now ≤ 13 }
    ensures added { map fact_of facts.new.items
        ≡ map fact_of facts.old.items ++ facts_in (listed fields.now) bytes.entry.now }
    ensures behind { result.now ≡ drop (size_of (listed fields.now)) bytes.entry.now }
    ensures most { length facts.new.items ≤ length facts.old.items + length fields.now }
{
    let mut rest = bytes;
    for entry in fields {
        rest = push_entry(*entry, rest, facts);
    }
    rest
}

// Adds a field, if there is one and its bytes are there, and gives the bytes behind it.
fn push_entry<'o>(entry: Option<Field>, bytes: &'o [u8], facts: &mut Facts<'o>) -> &'o [u8]
    requires { length facts.old.items ≤ 12 }
    ensures added { map fact_of facts.new.items
        ≡ map fact_of facts.old.items ++ facts_in (listed (entry ∷ [])) bytes.entry.now }
    ensures behind { result.now ≡ drop (size_of (listed (entry ∷ []))) bytes.entry.now }
    ensures most { length facts.new.items ≤ length facts.old.items + 1 }
{
    let Some(field) = entry else {
        return bytes;
    };
    if bytes.len() < field.width() {
        return &[];
    }
    facts.push(Fact {
        name: field.name(),
        value: field.value(bytes),
    });
    &bytes[field.width()..]
}

// The fields that an opcode has behind those of its number.
fn tail_of(opcode: &[u8]) -> [Option<Field>; 3]
    requires { 2 ≤ length opcode.now }
    ensures { listed result ≡ tail_of opcode.now }
{
    match opcode[0] {
        NUMERIC => numbers(Width::of_flags(byte_at(opcode, 13))),
        ONE_OF => numbers(Width::of_flags(byte_at(opcode, 13))),
        ONE_OF_OPTION => typed(byte_at(opcode, 5)),
        DEFAULT => typed(byte_at(opcode, 4)),
        EQ_ID_VAL_LIST => values_listed(count_at(opcode, 4)),
        VARSTORE => name_of_store(),
        VARSTORE_EFI => name_of_store(),
        _ => [None, None, None],
    }
}

// The byte at an offset, or 0 behind the end.
fn byte_at(bytes: &[u8], at: usize) -> u8
    ensures { result ≡ number_in bytes.now at 1 }
{
    match bytes.get(at) {
        Some(byte) => *byte,
        None => 0,
    }
}

// The number of two bytes at an offset, of which those behind the end are 0.
fn count_at(bytes: &[u8], at: usize) -> u16
    requires { at < 2 ^ 32 }
    ensures { result ≡ number_in bytes.now at 2 }
{
    u16::from(byte_at(bytes, at)) + 256 * u16::from(byte_at(bytes, at + 1))
}

// The numbers of a NUMERIC or ONE_OF.
fn numbers(width: Width) -> [Option<Field>; 3]
    ensures { listed result ≡ numbers (bytes_in width) }
{
    [
        Some(Field::Decimal(Name::MinValue, width)),
        Some(Field::Decimal(Name::MaxValue, width)),
        Some(Field::Decimal(Name::Step, width)),
    ]
}

// A value of a Type.
fn typed(kind: u8) -> [Option<Field>; 3]
    ensures { listed result ≡ typed kind }
{
    let value = match kind {
        TYPE_NUM_SIZE_8 | TYPE_BOOLEAN => VALUE8,
        TYPE_NUM_SIZE_16 => VALUE16,
        TYPE_NUM_SIZE_32 => VALUE32,
        TYPE_NUM_SIZE_64 => VALUE64,
        TYPE_STRING => Some(Field::Text(Name::Value)),
        _ => Some(Field::Rest(Name::Value)),
    };
    [value, None, None]
}

// The numbers of an EQ_ID_VAL_LIST, if it has some.
fn values_listed(count: u16) -> [Option<Field>; 3]
    ensures { listed result ≡ values_listed count }
{
    if count == 0 {
        return [None, None, None];
    }
    [Some(Field::Listed(Name::ValueList, count)), None, None]
}

// The name of a store.
fn name_of_store() -> [Option<Field>; 3]
    ensures { listed result ≡ name_of_store }
{
    [Some(Field::ToNul(Name::Name)), None, None]
}

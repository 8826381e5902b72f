//! One field of an opcode.

ghost use Rattle.std.specs.Prelude.{◌≡◌, ◌≤◌, ◌*◌, ◌==◌, length, take};
ghost use Rattle.std.specs.List.{before_first};
ghost use Rattle.hii_bytes.specs.Numbers.{number_in};
ghost use Rattle.ifr_opcodes.specs.Fields.{number_width};
ghost use Rattle.opcode_audit.specs.Facts.{value_in};
ghost use Rattle.opcode_audit.specs.code.Columns.{bytes_in, field_of, value_of};
ghost use Rattle.opcode_audit.specs.code.Names.{text_of};

use crate::names::Name;
use hii_bytes::{Guid, first_place, number_at};

/// How many bytes a number has.
#[derive(Clone, Copy)]
pub(crate) enum Width {
    One,
    Two,
    Four,
    Eight,
}

impl Width {
    /// How many bytes these are.
    pub(crate) fn bytes(self) -> usize
        ensures { result ≡ bytes_in self }
    {
        match self {
            Width::One => 1,
            Width::Two => 2,
            Width::Four => 4,
            Width::Eight => 8,
        }
    }

    /// How many bytes each number of a NUMERIC or ONE_OF has by its Flags (EFI_IFR_NUMERIC_SIZE).
    pub(crate) fn of_flags(flags: u8) -> Width
        ensures { bytes_in result ≡ number_width flags }
    {
        match flags & 3 {
            0 => Width::One,
            1 => Width::Two,
            2 => Width::Four,
            _ => Width::Eight,
        }
    }
}

/// A field of an opcode: its name, and what it is.
#[derive(Clone, Copy)]
pub(crate) enum Field {
    /// A number, told in decimal digits.
    Decimal(Name, Width),
    /// Flags, attributes or an offset, told in hex digits.
    Hex(Name, Width),
    /// A string id, told with its text.
    Text(Name),
    /// A GUID.
    Guid(Name),
    /// All bytes that are left, of which there are some.
    Rest(Name),
    /// Of all bytes that are left those before the first NUL.
    ToNul(Name),
    /// Of all bytes that are left so many numbers of two bytes.
    Listed(Name, u16),
}

/// What a field holds.
#[derive(Clone, Copy)]
pub(crate) enum Value<'o> {
    /// A number.
    Number(u64),
    /// Flags, attributes or an offset.
    Bits(u64),
    /// A string id.
    Id(u16),
    /// A GUID.
    Guid(Guid<'o>),
    /// Bytes.
    Bytes(&'o [u8]),
    /// A name of one character a byte.
    Name(&'o [u8]),
    /// Numbers of two bytes.
    Numbers(&'o [u8]),
}

impl Default for Value<'_> {
    fn default() -> Self {
        Value::Number(0)
    }
}

impl Field {
    /// The standard's name of the field.
    pub(crate) fn name(self) -> Name
        ensures { text_of result ≡ (field_of self).name }
    {
        match self {
            Field::Decimal(name, _) => name,
            Field::Hex(name, _) => name,
            Field::Text(name) => name,
            Field::Guid(name) => name,
            Field::Rest(name) => name,
            Field::ToNul(name) => name,
            Field::Listed(name, _) => name,
        }
    }

    /// How many bytes the field has; at least, where it takes all that are left.
    pub(crate) fn width(self) -> usize
        ensures { result ≡ (field_of self).width }
    {
        match self {
            Field::Decimal(_, width) => width.bytes(),
            Field::Hex(_, width) => width.bytes(),
            Field::Text(_) => 2,
            Field::Guid(_) => 16,
            Field::Rest(_) => 1,
            Field::ToNul(_) => 1,
            Field::Listed(_, _) => 2,
        }
    }

    /// What the field holds with which bytes begin.
    pub(crate) fn value(self, bytes: &[u8]) -> Value<'_>
        requires { (field_of self).width ≤ length bytes.now }
        ensures { value_of result ≡ value_in (field_of self).kind (field_of self).width bytes.entry.now }
    {
        match self {
            Field::Decimal(_, width) => Value::Number(number_of(bytes, width)),
            Field::Hex(_, width) => Value::Bits(number_of(bytes, width)),
            Field::Text(_) => Value::Id(number_of(bytes, Width::Two) as u16),
            Field::Guid(_) => Value::Guid(Guid::at(bytes, 0).unwrap()),
            Field::Rest(_) => Value::Bytes(bytes),
            Field::ToNul(_) => Value::Name(before_nul(bytes)),
            Field::Listed(_, count) => Value::Numbers(first_numbers(bytes, count)),
        }
    }
}

// The number with which bytes begin.
fn number_of(bytes: &[u8], width: Width) -> u64
    requires { bytes_in width ≤ length bytes.now }
    ensures { result ≡ number_in bytes.now 0 (bytes_in width) }
{
    number_at(bytes, 0, width.bytes()).unwrap()
}

// The bytes before the first NUL, or all of them.
fn before_nul(bytes: &[u8]) -> &[u8]
    ensures { result.now ≡ before_first (λ byte. byte == 0) bytes.entry.now }
{
    match first_place(bytes, 0) {
        Some(end) => &bytes[..end],
        None => bytes,
    }
}

// The bytes of so many numbers of two bytes, or all of them.
fn first_numbers(bytes: &[u8], count: u16) -> &[u8]
    ensures { result.now ≡ take (2 * count) bytes.entry.now }
{
    let wanted = 2 * usize::from(count);
    &bytes[..wanted.min(bytes.len())]
}

//! The values of fields.

ghost use Rattle.std.specs.Prelude.{◌≡◌, length};
ghost use Rattle.ifr_expr.specs.Values.{as_number};
ghost use Rattle.ifr_expr.specs.code.Views.{value_of};
ghost use Rattle.hii_values.specs.Answers.{answer_in};
ghost use Rattle.hii_values.specs.FieldTypes.{size_of_type};
ghost use Rattle.hii_values.specs.code.TypeViews.{type_in};

use crate::field_type::FieldType;
use crate::items::bytes_of_items;
use crate::numbers::number_of;
use ifr_expr::Value;

/// The value that the bytes of a field are.
#[inline(always)]
pub fn value_in<'s>(field_type: FieldType<'_>, bytes: &'s [u8]) -> Value<'s>
    requires { length bytes.now ≡ size_of_type (type_in field_type) }
    ensures { value_of result ≡ answer_in (type_in field_type.entry) bytes.now }
{
    match field_type {
        FieldType::Checkbox => Value::Boolean(bytes[0] != 0),
        FieldType::Numeric(numeric) => Value::Number(number_of(bytes, numeric.width)),
        FieldType::OneOf(one_of) => Value::Number(number_of(bytes, one_of.width)),
        FieldType::Text(_) => Value::Text(bytes_of_items(bytes, 2)),
        FieldType::OrderedList(_) => Value::Buffer(bytes),
    }
}

/// The number that the bytes of a field are, if they are one; a checkbox counts as 0 or 1.
pub fn number_in(field_type: FieldType<'_>, bytes: &[u8]) -> Option<u64>
    requires { length bytes.now ≡ size_of_type (type_in field_type) }
    ensures { result ≡ as_number (answer_in (type_in field_type.entry) bytes.now) }
{
    match field_type {
        FieldType::Checkbox => Some(u64::from(bytes[0] != 0)),
        FieldType::Numeric(numeric) => Some(number_of(bytes, numeric.width)),
        FieldType::OneOf(one_of) => Some(number_of(bytes, one_of.width)),
        FieldType::Text(_) => None,
        FieldType::OrderedList(_) => None,
    }
}

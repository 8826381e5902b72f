//! What is offered to a question as its value.

ghost use Rattle.std.specs.Prelude.{◌≡◌};
ghost use Rattle.hii_values.specs.Inputs.{read_as};
ghost use Rattle.hii_values.specs.code.Offers.{offer_of, HasField, HasList};
ghost use Rattle.hii_values.specs.code.TypeViews.{type_in};

use crate::field_type::FieldType;
use crate::numbers::number_of;

/// A value that is offered to a question.
#[derive(Clone, Copy)]
pub enum Input<'i> {
    /// A number.
    Number(i128),
    /// The bits of a number.
    Raw(u64),
    /// A text in UTF-8, or bytes that may be one.
    Utf8(&'i [u8]),
    /// A text in units of two bytes each, the lowest first. The first unit that is 0 ends it.
    Units(&'i [u8]),
    /// A list of numbers, as `hii_bytes::is_number_list` tells.
    List(&'i [u8]),
    /// A list as it stands in a field: elements of as many bytes each as `element_width` says, the lowest first. The first
    /// element that is 0 ends the list, and a part of an element at the end is left off. There may be any number of bytes:
    /// a list of more elements than the question holds is denied by its length.
    Elements(&'i [u8]),
    /// The bytes of a whole field in its order, as many as the field has. They are read as what the field holds: a number of
    /// all of them, the lowest byte first; a text in units of two bytes, or a list in elements, up to the first that is 0.
    Field(&'i [u8]),
}

impl<'i> Input<'i> {
    /// The bytes of a field as what the field holds.
    #[inline(always)]
    pub fn read_as(self, field_type: FieldType<'_>) -> Input<'i>
        requires { HasField (type_in field_type) self }
        ensures value { offer_of result ≡ read_as (type_in field_type.entry) (offer_of self.entry) }
        ensures list { HasList self.entry → HasList result }
    {
        let Input::Field(bytes) = self else {
            return self;
        };
        match field_type {
            FieldType::Checkbox => Input::Raw(number_of(bytes, 1)),
            FieldType::Numeric(numeric) => Input::Raw(number_of(bytes, numeric.width)),
            FieldType::OneOf(one_of) => Input::Raw(number_of(bytes, one_of.width)),
            FieldType::Text(_) => Input::Units(bytes),
            FieldType::OrderedList(_) => Input::Elements(bytes),
        }
    }
}

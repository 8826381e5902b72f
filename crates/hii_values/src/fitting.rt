//! Which values fields take.

ghost use Rattle.std.specs.Prelude.{◌≡◌, ◌*◌, true, IfSome, Some};
ghost use Rattle.byteorder.specs.Endian.{little_bytes};
ghost use Rattle.ifr_nodes.specs.code.Checked.{IsNodeOf};
ghost use Rattle.ifr_scopes.specs.code.Lists.{statement_node};
ghost use Rattle.hii_values.specs.code.Contents.{content_bytes};
ghost use Rattle.hii_values.specs.code.Fitting.{Gives, names_options, offered_items, one_item};
ghost use Rattle.hii_values.specs.FieldTypes.{checkbox, size_of_type};
ghost use Rattle.hii_values.specs.Inputs.{fits_type, numeric_bytes, offered, chosen_bytes, text_bytes, list_bytes};
ghost use Rattle.hii_values.specs.code.ChoiceViews.{AsksIn, choice_values};
ghost use Rattle.hii_values.specs.code.Widths.{is_width};
ghost use Rattle.hii_values.specs.code.ItemsLeft.{items_left};
ghost use Rattle.hii_values.specs.code.Offers.{offer_of, HasList};
ghost use Rattle.hii_values.specs.code.TypeViews.{type_in, numeric_in, one_of_in, text_in, list_in, list_width};

use crate::content::Content;
use crate::denial::DenialKind;
use crate::field_type::{FieldType, ListType, NumericType, OneOfType, TextType};
use crate::input::Input;
use crate::items::Items;
use crate::lists::check_list;
use crate::numbers::{bits_of, fitting_bits, shown};
use crate::option_table::OptionTable;
use crate::stored_items::StoredItems;
use crate::texts::{count_within, text_of};
use hii_bytes::NumberList;

/// What a field is to hold where it takes an input that is not the bytes of a field. A table of the package may tell of options.
#[inline(always)]
pub fn content_of<'i>(
    field_type: FieldType<'_>,
    input: Input<'i>,
    table: Option<&OptionTable<'_>>,
) -> Result<Content<'i>, DenialKind>
    requires list { HasList input }
    requires known { IfSome table (λ t. AsksIn t.now field_type) }
    ensures { Gives (size_of_type (type_in field_type.entry))
        (fits_type (type_in field_type.entry) (offer_of input.entry))
        (offered_items (type_in field_type.entry) (offer_of input.entry)) result }
{
    match field_type {
        FieldType::Checkbox => checkbox_content(input),
        FieldType::Numeric(numeric) => numeric_content(numeric, input),
        FieldType::OneOf(one_of) => one_of_content(one_of, input, table),
        FieldType::Text(text) => text_content(text, input),
        FieldType::OrderedList(list) => list_content(list, input),
    }
}

/// Whether the items of a field are values of options.
#[inline(always)]
pub fn names_options(field_type: FieldType<'_>) -> bool
    ensures { result ≡ names_options (type_in field_type.entry) }
{
    matches!(field_type, FieldType::OneOf(_) | FieldType::OrderedList(_))
}

// A number of `width` bytes.
#[inline(always)]
fn number_content<'i>(number: u64, width: usize) -> Content<'i>
    requires { is_width width ≡ true }
    ensures bytes { content_bytes result ≡ little_bytes width number }
    ensures items { items_left result.items ≡ one_item (Some number) }
{
    Content {
        items: Items::Number(Some(number)),
        width,
    }
}

#[inline(always)]
fn checkbox_content(input: Input<'_>) -> Result<Content<'_>, DenialKind>
    ensures { Gives 1 (fits_type checkbox (offer_of input.entry))
        (offered_items checkbox (offer_of input.entry)) result }
{
    match input {
        Input::Number(0) | Input::Raw(0) => Ok(number_content(0, 1)),
        Input::Number(1) | Input::Raw(_) => Ok(number_content(1, 1)),
        Input::Number(_) => Err(DenialKind::Range),
        _ => Err(DenialKind::Kind),
    }
}

#[inline(always)]
fn numeric_content(numeric: NumericType, input: Input<'_>) -> Result<Content<'_>, DenialKind>
    ensures { Gives numeric.width (fits_type (numeric_in numeric) (offer_of input.entry))
        (offered_items (numeric_in numeric) (offer_of input.entry)) result }
{
    match input {
        Input::Number(number) => {
            within_bounds(numeric, bits_of(numeric.signed, numeric.width, number))
        }
        Input::Raw(bits) => within_bounds(numeric, fitting_bits(numeric.width, bits)),
        _ => Err(DenialKind::Kind),
    }
}

// The number of these bits, where there are some, and it is within the bounds.
#[inline(always)]
fn within_bounds<'i>(numeric: NumericType, bits: Option<u64>) -> Result<Content<'i>, DenialKind>
    ensures { Gives numeric.width
        (numeric_bytes numeric.signed numeric.width numeric.minimum numeric.maximum bits)
        (one_item bits) result }
{
    let Some(bits) = bits else {
        return Err(DenialKind::Range);
    };
    let number = shown(numeric.signed, numeric.width, bits);
    if number < shown(numeric.signed, numeric.width, numeric.minimum)
        || shown(numeric.signed, numeric.width, numeric.maximum) < number
    {
        return Err(DenialKind::Range);
    }
    Ok(number_content(bits, numeric.width))
}

#[inline(always)]
fn one_of_content<'i>(
    one_of: OneOfType<'_>,
    input: Input<'i>,
    table: Option<&OptionTable<'_>>,
) -> Result<Content<'i>, DenialKind>
    requires { IfSome table (λ t. IsNodeOf t.now (statement_node one_of.choices.question)) }
    ensures { Gives one_of.entry.width
        (fits_type (one_of_in one_of.entry) (offer_of input.entry))
        (offered_items (one_of_in one_of.entry) (offer_of input.entry)) result }
{
    match input {
        Input::Number(number) => chosen(one_of, number, table),
        Input::Raw(bits) => chosen(one_of, i128::from(bits), table),
        _ => Err(DenialKind::Kind),
    }
}

// The number, where an option has it as its value.
fn chosen<'i>(
    one_of: OneOfType<'_>,
    number: i128,
    table: Option<&OptionTable<'_>>,
) -> Result<Content<'i>, DenialKind>
    requires { IfSome table (λ t. IsNodeOf t.now (statement_node one_of.choices.question)) }
    ensures { Gives one_of.entry.width
        (chosen_bytes one_of.entry.width (offered (choice_values one_of.entry.choices) number))
        (one_item (offered (choice_values one_of.entry.choices) number)) result }
{
    let value = match table {
        Some(table) => one_of.choices.value_in(table, number),
        None => one_of.choices.value(number),
    };
    match value {
        Some(value) => Ok(number_content(value, one_of.width)),
        None => Err(DenialKind::NoOption),
    }
}

fn text_content(text: TextType, input: Input<'_>) -> Result<Content<'_>, DenialKind>
    ensures { Gives (2 * text.maximum) (fits_type (text_in text) (offer_of input.entry))
        (offered_items (text_in text) (offer_of input.entry)) result }
{
    match input {
        Input::Utf8(bytes) => match text_of(bytes) {
            Some(characters) => of_length(text, Items::Text(characters)),
            None => Err(DenialKind::BadText),
        },
        Input::Units(bytes) => of_length(text, Items::Stored(StoredItems { bytes, width: 2 })),
        _ => Err(DenialKind::Kind),
    }
}

// The units, where they are neither too few nor too many.
fn of_length<'i>(text: TextType, units: Items<'i>) -> Result<Content<'i>, DenialKind>
    ensures { Gives (2 * text.maximum)
        (text_bytes text.minimum text.maximum (items_left units.entry)) (items_left units.entry)
        result }
{
    match count_within(units, text.maximum) {
        Some(count) if text.minimum <= count => Ok(Content {
            items: units,
            width: 2,
        }),
        _ => Err(DenialKind::Length),
    }
}

fn list_content<'i>(list: ListType<'_>, input: Input<'i>) -> Result<Content<'i>, DenialKind>
    requires { HasList input }
    ensures { Gives (list.entry.most * list_width list.entry)
        (fits_type (list_in list.entry) (offer_of input.entry))
        (offered_items (list_in list.entry) (offer_of input.entry)) result }
{
    match input {
        Input::List(text) => elements(list, Items::List(NumberList::of(text))),
        Input::Elements(bytes) => {
            let width = list.width();
            elements(list, Items::Stored(StoredItems { bytes, width }))
        }
        _ => Err(DenialKind::Kind),
    }
}

// The elements, where an ordered list takes them.
fn elements<'i>(list: ListType<'_>, items: Items<'i>) -> Result<Content<'i>, DenialKind>
    ensures { Gives (list.entry.most * list_width list.entry)
        (list_bytes (list_width list.entry) list.entry.most list.entry.unique list.entry.some
        (choice_values list.entry.choices) (items_left items.entry)) (items_left items.entry)
        result }
{
    check_list(list, items)?;
    Ok(Content {
        items,
        width: list.width(),
    })
}

//! What rows show of statements.

ghost use Rattle.std.specs.Prelude.{◌≡◌, ◌≤◌};

use crate::ascii_text::Ascii;
use crate::hex_digits::HexDigits;
use crate::option_texts::Elements;
use crate::value_chars::{Behind, RowValueChars};
use guard_policy::Conditions;
use hii_languages::Shown;
use sibt_strings::Units;

/// What a row shows of a statement, by its kind.
#[derive_where(Clone, Copy)]
pub enum RowValue<'a, 's, C: Conditions> {
    /// There is nothing to show.
    Empty,
    /// Whether a checkbox is checked.
    Checkbox(bool),
    /// A number in decimal.
    Unsigned(u64),
    /// A number in decimal, with its sign.
    Signed(i128),
    /// A number in hexadecimal digits.
    Hexadecimal(Hexadecimal),
    /// The text of the option that is chosen, if one is to be seen.
    OneOf(Option<Shown<'a>>),
    /// The elements of a list.
    OrderedList(Elements<'a, 's, C>),
    /// A text of a store.
    String(Units<'s>),
    /// Whether there is a password.
    Password(bool),
    /// The id of the form to which a reference leads, if it leads to one.
    Reference(Option<u16>),
    /// The word `reset`, where the statement is a RESET_BUTTON.
    ResetButton,
    /// A text of the list.
    Text(Shown<'a>),
}

/// A number that is shown in two hexadecimal digits for each of its bytes.
#[derive(Clone, Copy)]
pub struct Hexadecimal {
    pub number: u64,
    /// How many bytes it has.
    pub width: usize,
    pub ghost within: { width ≤ 8 },
}

impl<'a, 's, C: Conditions> RowValue<'a, 's, C> {
    ghost use Rattle.form_page.specs.code.RowViews.{value_text};
    ghost use Rattle.form_page.specs.code.CharViews.{value_chars_left};

    /// The characters of the value, which stand between the brackets of the row.
    pub fn chars(self) -> RowValueChars<'a, 's, C>
        ensures { value_chars_left result ≡ value_text self.entry }
    {
        if let RowValue::Checkbox(is_checked) = self {
            return RowValueChars::ascii(Ascii::checkbox(is_checked));
        }
        if let RowValue::Unsigned(number) = self {
            return RowValueChars::ascii(Ascii::unsigned(number));
        }
        if let RowValue::Signed(number) = self {
            return RowValueChars::ascii(Ascii::signed(number));
        }
        if let RowValue::Hexadecimal(number) = self {
            return RowValueChars::hexadecimal(number);
        }
        if let RowValue::OneOf(option) = self {
            return RowValueChars::one_of(option);
        }
        if let RowValue::OrderedList(elements) = self {
            return RowValueChars::list(elements);
        }
        if let RowValue::String(units) = self {
            return RowValueChars::units(units);
        }
        if let RowValue::Password(is_there) = self {
            return RowValueChars::ascii(Ascii::password(is_there));
        }
        if let RowValue::Reference(form) = self {
            return RowValueChars::ascii(Ascii::arrow(form));
        }
        if let RowValue::ResetButton = self {
            return RowValueChars::ascii(Ascii::reset());
        }
        if let RowValue::Text(text) = self {
            return RowValueChars::shown(text);
        }
        RowValueChars::ascii(Ascii::empty())
    }
}

//! What the fields of questions hold.

ghost use Rattle.std.specs.Prelude.{◌≡◌, true};
ghost use Rattle.hii_values.specs.code.Widths.{is_width};

use crate::choices::Choices;
use crate::elements::element_width;
use ifr_opcodes::Display;
use ifr_scopes::{Statement, StatementKind};

/// How many bytes the field of a question has at most that is no PASSWORD: those of an ORDERED_LIST of 255 elements of 8
/// bytes (UEFI 2.8, 33.3.8.3, EFI_IFR_ORDERED_LIST).
pub const WIDEST_FIELD: usize = 2040;

/// A number of `width` bytes, signed or not, within bounds (UEFI 2.8, 33.3.8.3, EFI_IFR_NUMERIC).
#[derive(Clone, Copy)]
pub struct NumericType {
    pub(crate) signed: bool,
    pub(crate) width: usize,
    pub(crate) minimum: u64,
    pub(crate) maximum: u64,
    pub(crate) ghost wide: { is_width width ≡ true },
}

/// A number of `width` bytes, the value of an option (UEFI 2.8, 33.3.8.3, EFI_IFR_ONE_OF).
#[derive(Clone, Copy)]
pub struct OneOfType<'a> {
    pub(crate) width: usize,
    pub(crate) choices: Choices<'a>,
    pub(crate) ghost wide: { is_width width ≡ true },
}

/// From `minimum` to `maximum` characters (UEFI 2.8, 33.3.8.3, EFI_IFR_STRING and EFI_IFR_PASSWORD).
#[derive(Clone, Copy)]
pub struct TextType {
    pub(crate) minimum: u16,
    pub(crate) maximum: u16,
}

/// At most `most` values of options (UEFI 2.8, 33.3.8.3, EFI_IFR_ORDERED_LIST).
#[derive(Clone, Copy)]
pub struct ListType<'a> {
    pub(crate) most: u8,
    /// None may come twice.
    pub(crate) unique: bool,
    /// One must be there.
    pub(crate) some: bool,
    pub(crate) choices: Choices<'a>,
}

impl<'a> ListType<'a> {
    ghost use Rattle.hii_values.specs.code.TypeViews.{list_width};

    /// How many bytes each value has.
    pub(crate) fn width(self) -> usize
        ensures value { result ≡ list_width self.entry }
        ensures wide { is_width result ≡ true }
    {
        element_width(self.choices.question)
    }
}

/// What a field holds.
#[derive(Clone, Copy)]
pub enum FieldType<'a> {
    /// True or false, in one byte (UEFI 2.8, 33.3.8.3, EFI_IFR_CHECKBOX).
    Checkbox,
    /// A number within bounds.
    Numeric(NumericType),
    /// The value of an option.
    OneOf(OneOfType<'a>),
    /// Characters.
    Text(TextType),
    /// Values of options, in an order.
    OrderedList(ListType<'a>),
}

impl<'a> FieldType<'a> {
    ghost use Rattle.std.specs.Prelude.{◌≤◌, ◌<◌, ◌^◌, false, IfSome, option_map};
    ghost use Rattle.ifr_scopes.specs.code.Lists.{statement_node};
    ghost use Rattle.hii_values.specs.declared.field_type.TheConstants.{WIDEST_FIELD};
    ghost use Rattle.hii_values.specs.Types.{is_password, type_of};
    ghost use Rattle.hii_values.specs.FieldTypes.{size_of_type};
    ghost use Rattle.hii_values.specs.code.ChoiceViews.{Asks};
    ghost use Rattle.hii_values.specs.code.TypeViews.{type_in};

    /// What the field of a statement holds, if it is a question that may have one.
    #[inline(always)]
    pub fn of(statement: Statement<'a>) -> Option<FieldType<'a>>
        ensures held { option_map type_in result ≡ type_of (statement_node statement.entry) }
        ensures narrow { is_password (statement_node statement.entry) ≡ false
            → IfSome result (λ t. size_of_type (type_in t) ≤ WIDEST_FIELD) }
        ensures asks { IfSome result (Asks (statement_node statement.entry)) }
    {
        match statement.kind() {
            StatementKind::Checkbox(_) => Some(FieldType::Checkbox),
            StatementKind::Numeric(numeric) => Some(FieldType::Numeric(NumericType {
                signed: matches!(numeric.display(), Display::Signed),
                width: numeric.width(),
                minimum: numeric.minimum(),
                maximum: numeric.maximum(),
            })),
            StatementKind::OneOf(one_of) => Some(FieldType::OneOf(OneOfType {
                width: one_of.width(),
                choices: Choices {
                    question: statement,
                },
            })),
            StatementKind::String(text) => Some(FieldType::Text(TextType {
                minimum: u16::from(text.minimum()),
                maximum: u16::from(text.maximum()),
            })),
            StatementKind::Password(text) => Some(FieldType::Text(TextType {
                minimum: text.minimum(),
                maximum: text.maximum(),
            })),
            StatementKind::OrderedList(list) => Some(FieldType::OrderedList(ListType {
                most: list.max_containers(),
                unique: list.is_unique_set(),
                some: list.has_no_empty_set(),
                choices: Choices {
                    question: statement,
                },
            })),
            _ => None,
        }
    }

    /// How many bytes the field has.
    pub fn size(self) -> usize
        ensures size { result ≡ size_of_type (type_in self.entry) }
        ensures small { result < 2 ^ 32 }
    {
        match self {
            FieldType::Checkbox => 1,
            FieldType::Numeric(numeric) => numeric.width,
            FieldType::OneOf(one_of) => one_of.width,
            FieldType::Text(text) => 2 * usize::from(text.maximum),
            FieldType::OrderedList(list) => usize::from(list.most) * list.width(),
        }
    }
}

//! What a DEFAULT gives.

ghost use Rattle.std.specs.Prelude.{◌≡◌, ◌⊎◌, Option, length, option_map, IfSome};
ghost use Rattle.ifr_expr.specs.Values.{as_number};
ghost use Rattle.ifr_expr.specs.code.Views.{value_of};
ghost use Rattle.ifr_scopes.specs.code.Parts.{default_node};
ghost use Rattle.hii_values.specs.code.Offers.{offer_of};
ghost use Rattle.hii_questions.specs.Fields.{Field};
ghost use Rattle.hii_questions.specs.code.Offers.{IsGiven};
ghost use Rattle.hii_questions.specs.code.Views.{question_node};
ghost use Rattle.browser_rules.specs.Strings as chapter;
ghost use Rattle.hii_languages.specs.code.Views.{choice_of};
ghost use Rattle.ifr_defaults.specs.Defaults as spec;
ghost use Rattle.ifr_defaults.specs.code.Views.{sources_of};

use hii_bytes::{number_at, u16_at};
use hii_languages::{Choice, Languages};
use hii_questions::{Input, Question, bytes_of_items, element_width};
use ifr_expr::{Answers, Value};
use ifr_opcodes::{
    TYPE_BOOLEAN, TYPE_BUFFER, TYPE_NUM_SIZE_8, TYPE_NUM_SIZE_16, TYPE_NUM_SIZE_32,
    TYPE_NUM_SIZE_64, TYPE_OTHER, TYPE_STRING,
};
use ifr_scopes::{DefaultView, Forms};

// The number that some bytes are.
#[tactic(auto, unfolding(hii_bytes::specs::Numbers::number_in))]
fn number_of(bytes: &[u8]) -> u64
    requires { (length bytes.now ≡ 1) ⊎ (length bytes.now ≡ 2) ⊎ (length bytes.now ≡ 4)
        ⊎ (length bytes.now ≡ 8) }
    ensures { result ≡ spec.value_number bytes.now }
{
    number_at(bytes, 0, bytes.len()).unwrap()
}

// The units of the text whose string id stands in some bytes, if there is one.
#[tactic(auto, unfolding(hii_bytes::specs::Numbers::number_in))]
fn text_of<'a>(bytes: &[u8], languages: &Languages<'a>, choice: Choice) -> Option<&'a [u8]>
    requires { length bytes.now ≡ 2 }
    ensures { option_map (λ units. units.now) result
        ≡ chapter.text_of languages.now (choice_of choice) (spec.value_number bytes.now) }
{
    let units = languages.units(choice, u16_at(bytes, 0).unwrap())?;
    Some(units.bytes)
}

// A value as a number, if it is a Boolean or a number.
fn as_number(value: Value<'_>) -> Option<u64>
    ensures { result ≡ as_number (value_of value.entry) }
{
    match value {
        Value::Boolean(holds) => Some(u64::from(holds)),
        Value::Number(number) => Some(number),
        _ => None,
    }
}

/// What a DEFAULT of a question gives, by its Type (UEFI 2.8, 33.3.8.3, EFI_IFR_DEFAULT): a number; 1 for a Boolean other than 0;
/// the text of a string id, in the chosen string package, else in the first; of a buffer its elements before the first that is
/// 0; the value of its expression, where that is a Boolean or a number. Other Types give nothing (own rule).
pub(crate) fn given<'a: 'v, 'v, A: Answers<'v>>(
    question: Question<'a>,
    default: DefaultView<'a>,
    answers: &A,
    forms: &Forms<'a>,
    languages: &Languages<'a>,
    choice: Choice,
) -> Option<Input<'a>>
    ensures value { option_map offer_of result ≡ spec.given
        (sources_of forms.now (A.answers answers.now) languages.now (choice_of choice))
        (question_node question.entry) (default_node default.entry) }
    ensures given { IfSome result (λ input. (field : Option Field) → IsGiven field input) }
{
    let op = default.op();
    let value = op.value();
    match op.kind() {
        TYPE_NUM_SIZE_8 | TYPE_NUM_SIZE_16 | TYPE_NUM_SIZE_32 | TYPE_NUM_SIZE_64 => {
            Some(Input::Raw(number_of(value)))
        }
        TYPE_BOOLEAN => Some(Input::Raw(u64::from(number_of(value) != 0))),
        TYPE_STRING => Some(Input::Units(text_of(value, languages, choice)?)),
        TYPE_BUFFER => {
            let width = element_width(question.statement());
            Some(Input::Elements(bytes_of_items(value, width)))
        }
        TYPE_OTHER => {
            let value = default.value()?.value(answers, forms, question.id());
            Some(Input::Raw(as_number(value)?))
        }
        _ => None,
    }
}

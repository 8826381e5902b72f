//! Defaults that their questions do not take.

ghost use Rattle.std.specs.Prelude.{◌≡◌, ◌⊎◌, ◌++◌, Option, OnOk, IfSome, length, option_map, true};
ghost use Rattle.browser_rules.specs.Strings.{text_in};
ghost use Rattle.ifr_opcodes.specs.Fields.{default_kind};
ghost use Rattle.ifr_nodes.specs.Nodes.{nodes_of};
ghost use Rattle.ifr_scopes.specs.code.Parts.{default_node};
ghost use Rattle.hii_values.specs.code.Offers.{offer_of};
ghost use Rattle.hii_questions.specs.Fields.{Field};
ghost use Rattle.hii_questions.specs.code.Offers.{IsGiven};
ghost use Rattle.hii_questions.specs.code.Views.{question_node, question_view};
ghost use Rattle.ifr_defaults.specs.Defaults.{given as given_by, value_number};
ghost use Rattle.check_audit.specs.GivenDefaults.{default_at, default_warnings, defaults_of, is_given, refusal_of, sources_without};

use crate::warning::{Oddity, Refused, Warning};
use hii_bytes::{number_at, u16_at};
use hii_questions::{
    DenialKind, Input, Question, Questions, bytes_of_items, check_value, element_width,
};
use ifr_opcodes::{
    TYPE_BOOLEAN, TYPE_BUFFER, TYPE_NUM_SIZE_8, TYPE_NUM_SIZE_16, TYPE_NUM_SIZE_32,
    TYPE_NUM_SIZE_64, TYPE_STRING,
};
use ifr_scopes::DefaultView;
use opcode_audit::FirstStrings;
use std::alloc::AllocError;

// The number that some bytes are.
#[tactic(auto, unfolding(hii_bytes::specs::Numbers::number_in))]
fn number_of(bytes: &[u8]) -> u64
    requires { (length bytes.now ≡ 1) ⊎ (length bytes.now ≡ 2) ⊎ (length bytes.now ≡ 4)
        ⊎ (length bytes.now ≡ 8) }
    ensures { result ≡ value_number bytes.now }
{
    number_at(bytes, 0, bytes.len()).unwrap()
}

// The units of the text whose string id stands in some bytes, if there is one.
#[tactic(auto, unfolding(hii_bytes::specs::Numbers::number_in))]
fn text_of<'a>(bytes: &[u8], strings: &FirstStrings<'a>) -> Option<&'a [u8]>
    requires { length bytes.now ≡ 2 }
    ensures { option_map (λ units. units.now) result
        ≡ text_in strings.now (value_number bytes.now) (Some 0) }
{
    let units = strings.text(u16_at(bytes, 0).unwrap())?;
    Some(units.bytes)
}

// Whether a DEFAULT of a Type says itself what it gives.
fn is_given(kind: u8) -> bool
    ensures { result ≡ is_given kind }
{
    kind <= TYPE_BOOLEAN || kind == TYPE_STRING || kind == TYPE_BUFFER
}

// What a DEFAULT gives that says so itself; nothing where its string id has no text.
fn given<'a>(
    strings: &FirstStrings<'a>,
    question: Question<'a>,
    default: DefaultView<'a>,
) -> Option<Input<'a>>
    requires { is_given (default_kind (default_node default).op) ≡ true }
    ensures value { option_map offer_of result
        ≡ given_by (sources_without strings.now) (question_node question.entry) (default_node default.entry) }
    ensures given { IfSome result (λ input. (field : Option Field) → IsGiven field input) }
{
    let op = default.op();
    let value = op.value();
    match op.kind() {
        TYPE_NUM_SIZE_8 | TYPE_NUM_SIZE_16 | TYPE_NUM_SIZE_32 | TYPE_NUM_SIZE_64 => {
            Some(Input::Raw(number_of(value)))
        }
        TYPE_BOOLEAN => Some(Input::Raw(u64::from(number_of(value) != 0))),
        TYPE_STRING => Some(Input::Units(text_of(value, strings)?)),
        TYPE_BUFFER => {
            let width = element_width(question.statement());
            Some(Input::Elements(bytes_of_items(value, width)))
        }
        _ => None,
    }
}

// Why a question does not take what a DEFAULT gives; where that is nothing there is no denial.
fn refusal_of(question: Question<'_>, input: Option<Input<'_>>) -> Option<Option<DenialKind>>
    requires { IfSome input (λ given. (field : Option Field) → IsGiven field given) }
    ensures { result ≡ refusal_of (question_view question.entry) (option_map offer_of input.entry) }
{
    let Some(input) = input else {
        return Some(None);
    };
    match check_value(question, input) {
        Ok(_) => None,
        Err(denial) => Some(Some(denial.kind)),
    }
}

// The warning of a DEFAULT that its question does not take.
fn default_at(
    strings: &FirstStrings<'_>,
    question: Question<'_>,
    default: DefaultView<'_>,
) -> Option<Warning>
    ensures { result ≡ default_at strings.now (question_view question.entry) (default_node default.entry) }
{
    if !is_given(default.op().kind()) {
        return None;
    }
    let input = given(strings, question, default);
    Some(Warning {
        place: default.place(),
        oddity: Oddity::Default(Refused {
            class: default.op().id(),
            question: question.id(),
            denial: refusal_of(question, input)?,
        }),
    })
}

// Adds the DEFAULTs of a question that it does not take, where it has a field.
fn add_of_question(
    strings: &FirstStrings<'_>,
    question: Question<'_>,
    warnings: &mut Vec<Warning>,
) -> Result<(), AllocError>
    ensures { OnOk result (warnings.new.items
        ≡ warnings.old.items ++ defaults_of strings.now (question_view question.entry)) }
{
    if question.field().is_none() {
        return Ok(());
    }
    let mut defaults = question.statement().defaults();
    while let Some(default) = defaults.next() {
        if let Some(warning) = default_at(strings, question, default) {
            warnings.push(warning)?;
        }
    }
    Ok(())
}

/// Adds the DEFAULTs that their questions do not take.
pub(crate) fn add_defaults(
    strings: &FirstStrings<'_>,
    questions: &Questions<'_>,
    warnings: &mut Vec<Warning>,
) -> Result<(), AllocError>
    ensures { OnOk result (warnings.new.items
        ≡ warnings.old.items ++ default_warnings strings.now (nodes_of questions.now.ifr)) }
{
    let mut left = questions.all();
    while let Some(question) = left.next() {
        add_of_question(strings, question, warnings)?;
    }
    Ok(())
}

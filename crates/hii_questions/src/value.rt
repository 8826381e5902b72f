//! The values of questions, and which they take.

ghost use Rattle.std.specs.Prelude.{◌≡◌, IfOk, IfSome};
ghost use Rattle.ifr_expr.specs.Values.{as_number};
ghost use Rattle.ifr_expr.specs.code.Views.{value_of};
ghost use Rattle.ifr_nodes.specs.code.Checked.{IsNodeOf};
ghost use Rattle.hii_values.specs.code.Offers.{offer_of};
ghost use Rattle.hii_questions.specs.Answers.{value_of_field};
ghost use Rattle.hii_questions.specs.code.Checks.{Checks, NamesItems};
ghost use Rattle.hii_questions.specs.code.Offers.{IsGiven};
ghost use Rattle.hii_questions.specs.code.Views.{question_node, question_view};

use crate::field::Field;
use crate::question::Question;
use crate::questions::Questions;
use hii_values::{
    DenialKind, FieldType, Input, OptionTable, ValueDenial, content_of, names_options, number_in,
    value_in,
};
use hii_varstore::Stores;
use ifr_expr::Value;

/// The value that a question has in the stores: that of its field, undefined where it has none there. A checkbox is true
/// where its byte is not 0; a number has no sign; a text is its units up to the first that is 0; a list is the whole field
/// (own rule).
#[inline(always)]
pub fn read_value<'s>(question: Question<'_>, stores: &'s Stores) -> Value<'s>
    ensures { value_of result ≡ value_of_field stores.now (question_node question.entry)
        (question_view question.entry).field }
{
    let Some(field) = question.field else {
        return Value::Undefined;
    };
    let Some(field_type) = FieldType::of(question.statement) else {
        return Value::Undefined;
    };
    match stores.field(field.store, usize::from(field.offset), field.width) {
        Some(bytes) => value_in(field_type, bytes),
        None => Value::Undefined,
    }
}

/// The value that a question has in the stores (`read_value`), where a number is wanted. Of a text and a list nothing is
/// read.
#[inline(always)]
pub(crate) fn read_number(question: Question<'_>, stores: &Stores) -> Option<u64>
    ensures { result ≡ as_number (value_of_field stores.now (question_node question.entry)
        (question_view question.entry).field) }
{
    let field = question.field?;
    let field_type = FieldType::of(question.statement)?;
    let bytes = stores.field(field.store, usize::from(field.offset), field.width)?;
    number_in(field_type, bytes)
}

/// The new bytes of a question's field, where the question takes the value; else why not, at the question's place. A
/// question without a field takes none (`Kind`), nor an input of another kind.
#[inline(always)]
pub fn check_value<'i>(question: Question<'_>, input: Input<'i>) -> Result<Field<'i>, ValueDenial>
    requires { IsGiven (question_view question).field input }
    ensures given { Checks (question_view question.entry) (offer_of input.entry) result }
    ensures items { IfOk result (NamesItems (question_view question.entry) (offer_of input.entry)) }
{
    check_by(question, None, input)
}

/// The same of a question of the package of these questions: of many options that of the value is found in a search.
#[inline(always)]
pub fn check_value_in<'i>(
    questions: &Questions<'_>,
    question: Question<'_>,
    input: Input<'i>,
) -> Result<Field<'i>, ValueDenial>
    requires node { IsNodeOf questions.now.ifr (question_node question) }
    requires given { IsGiven (question_view question).field input }
    ensures given { Checks (question_view question.entry) (offer_of input.entry) result }
    ensures items { IfOk result (NamesItems (question_view question.entry) (offer_of input.entry)) }
{
    check_by(question, Some(questions.options()), input)
}

// The same, where a table of the question's package may tell of options.
#[inline(always)]
fn check_by<'i>(
    question: Question<'_>,
    table: Option<&OptionTable<'_>>,
    input: Input<'i>,
) -> Result<Field<'i>, ValueDenial>
    requires node { IfSome table (λ t. IsNodeOf t.now (question_node question)) }
    requires given { IsGiven (question_view question).field input }
    ensures given { Checks (question_view question.entry) (offer_of input.entry) result }
    ensures items { IfOk result (NamesItems (question_view question.entry) (offer_of input.entry)) }
{
    let denied = |kind| ValueDenial::by(kind, question.place());
    let Some(field) = question.field else {
        return Err(denied(DenialKind::Kind));
    };
    let Some(field_type) = FieldType::of(question.statement) else {
        return Err(denied(DenialKind::Kind));
    };
    match content_of(field_type, input.read_as(field_type), table) {
        Ok(content) => Ok(Field {
            store: field.store,
            offset: field.offset,
            width: field.width,
            content,
            names: names_options(field_type),
        }),
        Err(kind) => Err(denied(kind)),
    }
}

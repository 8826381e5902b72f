//! What the rows of statements show.

ghost use Rattle.std.specs.Prelude.{◌≡◌, ◌%◌, ℕ, if◌then◌else◌, true, false, Some, None, option_map, List, length};
ghost use Rattle.ifr_opcodes.specs.code.Ops.{bytes_of as op_bytes};
ghost use Rattle.ifr_expr.specs.Values.{text as text_value};
ghost use Rattle.ifr_expr.specs.code.Views.{value_of};
ghost use Rattle.ifr_nodes.specs.code.Checked.{IsNodeOf};
ghost use Rattle.ifr_scopes.specs.code.Lists.{statement_node};
ghost use Rattle.ifr_nodes.specs.Nodes.{nodes_of, is_question};
ghost use Rattle.hii_values.specs.Types.{is_password};
ghost use Rattle.hii_questions.specs.Answers.{value_of_field};
ghost use Rattle.hii_questions.specs.Fields.{asked};
ghost use Rattle.hii_questions.specs.code.Views.{question_node, question_view};
ghost use Rattle.guard_policy.specs.code.Views.{bytes_of};
ghost use Rattle.form_page.specs.code.PageViews.{texts_of, world_of};
ghost use Rattle.form_page.specs.RowValues as values;
ghost use Rattle.form_page.specs.code.RowViews.{value_text};

use crate::option_texts::{Elements, option_text};
use crate::page::Page;
use crate::row_value::{Hexadecimal, RowValue};
use guard_policy::Conditions;
use hii_questions::{Question, StoredItems, element_width, read_value, shown};
use hii_varstore::Stores;
use ifr_expr::Value;
use ifr_opcodes::{Display, NumericOp};
use ifr_scopes::{Statement, StatementKind};
use sibt_strings::Units;

fn checkbox_value<'a, 's, C: Conditions>(value: Value<'_>) -> RowValue<'a, 's, C>
    ensures { value_text result ≡ values.checkbox_shown (value_of value.entry) }
{
    match value {
        Value::Boolean(is_checked) => RowValue::Checkbox(is_checked),
        _ => RowValue::Empty,
    }
}

/// What is shown of the value of a NUMERIC; of what is no number, nothing.
pub fn numeric_value<'a, 's, C: Conditions>(
    op: NumericOp<'_>,
    value: Value<'_>,
) -> RowValue<'a, 's, C>
    ensures { value_text result ≡ values.numeric_shown (op_bytes op.entry.op)
        (value_of value.entry) }
{
    let Value::Number(number) = value else {
        return RowValue::Empty;
    };
    let width = op.width();
    match op.display() {
        Display::Signed => RowValue::Signed(shown(true, width, number)),
        Display::Unsigned => RowValue::Unsigned(number),
        Display::Hexadecimal => RowValue::Hexadecimal(Hexadecimal { number, width }),
    }
}

fn one_of_value<'a, 's, C: Conditions>(
    page: Page<'a, 's, C>,
    statement: Statement<'a>,
    value: Value<'_>,
) -> RowValue<'a, 's, C>
    requires { IsNodeOf (bytes_of page.policy) (statement_node statement) }
    ensures { value_text result ≡ values.one_of_shown (texts_of page.entry) (world_of page.entry)
        (statement_node statement.entry) (value_of value.entry) }
{
    match value {
        Value::Number(number) => RowValue::OneOf(option_text(page, statement, number)),
        _ => RowValue::Empty,
    }
}

fn list_value<'a, 's, C: Conditions>(
    page: Page<'a, 's, C>,
    statement: Statement<'a>,
    value: Value<'s>,
) -> RowValue<'a, 's, C>
    requires { IsNodeOf (bytes_of page.policy) (statement_node statement) }
    ensures { value_text result ≡ values.list_shown (texts_of page.entry) (world_of page.entry)
        (statement_node statement.entry) (value_of value.entry) }
{
    let Value::Buffer(bytes) = value else {
        return RowValue::Empty;
    };
    RowValue::OrderedList(Elements {
        page,
        statement,
        items: StoredItems::new(bytes, element_width(statement)),
    })
}

fn string_value<'a, 's, C: Conditions>(value: Value<'s>) -> RowValue<'a, 's, C>
    requires { (units : List ℕ) → value_of value ≡ text_value units → length units % 2 ≡ 0 }
    ensures { value_text result ≡ values.string_shown (value_of value.entry) }
{
    match value {
        Value::Text(units) => RowValue::String(Units::new(units)),
        _ => RowValue::Empty,
    }
}

// What is shown of the password of a question: whether its text has a first unit.
fn password_value<'a, 's, C: Conditions>(
    question: Question<'a>,
    stores: &Stores,
) -> RowValue<'a, 's, C>
    requires { is_password (question_node question) ≡ true }
    ensures { value_text result ≡ values.password_shown (value_of_field stores.now
        (question_node question.entry) (question_view question.entry).field) }
{
    let Some(field) = question.field() else {
        return RowValue::Empty;
    };
    match stores.field(field.store, usize::from(field.offset), field.width) {
        Some(bytes) => RowValue::Password(StoredItems::new(bytes, 2).step().is_some()),
        None => RowValue::Empty,
    }
}

// What is shown of the value of a question that is no password.
fn stored_value<'a, 's, C: Conditions>(
    page: Page<'a, 's, C>,
    statement: Statement<'a>,
    value: Value<'s>,
) -> RowValue<'a, 's, C>
    requires node { IsNodeOf (bytes_of page.policy) (statement_node statement) }
    requires open { is_password (statement_node statement) ≡ false }
    requires whole { (units : List ℕ) → value_of value ≡ text_value units → length units % 2 ≡ 0 }
    ensures { value_text result ≡ values.stored_shown (texts_of page.entry) (world_of page.entry)
        (statement_node statement.entry) (value_of value.entry) }
{
    let kind = statement.kind();
    if let StatementKind::Checkbox(_) = kind {
        return checkbox_value(value);
    }
    if let StatementKind::Numeric(op) = kind {
        return numeric_value(op, value);
    }
    if let StatementKind::OneOf(_) = kind {
        return one_of_value(page, statement, value);
    }
    if let StatementKind::String(_) = kind {
        return string_value(value);
    }
    if let StatementKind::OrderedList(_) = kind {
        return list_value(page, statement, value);
    }
    RowValue::Empty
}

// What the row of a statement shows of its value, which only a question has.
fn question_value<'a, 's, C: Conditions>(
    page: Page<'a, 's, C>,
    statement: Statement<'a>,
    question: Option<Question<'a>>,
) -> RowValue<'a, 's, C>
    requires node { IsNodeOf (bytes_of page.policy) (statement_node statement) }
    requires asked { option_map question_view question
        ≡ (if is_question (statement_node statement)
        then Some (asked (nodes_of (bytes_of page.policy)) (statement_node statement)) else None) }
    ensures { value_text result ≡ values.question_shown (texts_of page.entry)
        (world_of page.entry) page.entry.stores.now (statement_node statement.entry) }
{
    match question {
        Some(question) if question.is_password() => password_value(question, page.stores),
        Some(question) => stored_value(page, statement, read_value(question, page.stores)),
        None => RowValue::Empty,
    }
}

/// What the row of a statement shows between its brackets, with the question that it is, if it is one.
pub(crate) fn statement_value<'a, 's, C: Conditions>(
    page: Page<'a, 's, C>,
    statement: Statement<'a>,
    question: Option<Question<'a>>,
) -> RowValue<'a, 's, C>
    requires node { IsNodeOf (bytes_of page.policy) (statement_node statement) }
    requires asked { option_map question_view question
        ≡ (if is_question (statement_node statement)
        then Some (asked (nodes_of (bytes_of page.policy)) (statement_node statement)) else None) }
    ensures { value_text result ≡ values.value_shown (texts_of page.entry)
        (world_of page.entry) page.entry.stores.now (statement_node statement.entry) }
{
    match statement.kind() {
        StatementKind::Text(op) => RowValue::Text(page.languages.text(page.choice, op.second())),
        StatementKind::ResetButton(_) => RowValue::ResetButton,
        StatementKind::Ref(op) => RowValue::Reference(op.target()),
        _ => question_value(page, statement, question),
    }
}

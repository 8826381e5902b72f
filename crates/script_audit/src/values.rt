//! Values of questions.

ghost use Rattle.std.specs.Prelude.{◌≡◌, ◌%◌, ℕ, List, length, option_map};
ghost use Rattle.hii_bytes.specs.Watching.{Puts};
ghost use Rattle.ifr_expr.specs.Values.{text as text_value};
ghost use Rattle.ifr_expr.specs.code.Views.{value_of};
ghost use Rattle.ifr_nodes.specs.Nodes.{nodes_of};
ghost use Rattle.ifr_nodes.specs.code.Checked.{IsNodeOf};
ghost use Rattle.ifr_scopes.specs.code.Lists.{statement_node};
ghost use Rattle.hii_values.specs.code.StoredLeft.{stored_left};
ghost use Rattle.hii_questions.specs.Fields.{asked};
ghost use Rattle.hii_questions.specs.code.Ranges.{range_in};
ghost use Rattle.hii_questions.specs.code.Views.{question_node, question_view};
ghost use Rattle.guard_policy.specs.code.Views.{bytes_of};
ghost use Rattle.form_page.specs.RowValues.{choice, choice_text, later_text, list_shown, one_of_shown};
ghost use Rattle.form_page.specs.code.PageViews.{texts_of, world_of};
ghost use Rattle.form_page.specs.code.RowViews.{value_text};
ghost use Rattle.question_audit.specs.QuestionLines.{unguarded};
ghost use Rattle.question_audit.specs.code.Choices.{choices};
ghost use Rattle.script_audit.specs.Told.{spelled};
ghost use Rattle.script_audit.specs.Values as spec;
ghost use Rattle.script_audit.specs.code.Pages.{seen_in};

use crate::spelling::{put_name, put_spelled, put_spelled_char};
use audit_json::Telling;
use audit_text::put_hexadecimal;
use form_page::{Page, RowValue};
use guard_policy::Conditions;
use hii_bytes::Watched;
use hii_languages::Shown;
use hii_questions::{FieldRange, Question, StoredItems, element_width, read_value};
use ifr_expr::Value;
use ifr_scopes::{Statement, StatementKind};
use question_audit::{StoreNames, option_of_value, put_script_value};
use sibt_strings::Units;
use std::io::Write;

// Writes the text of the option of a value, or a question mark where there is none.
fn put_choice<'a, C: Conditions, W: Write>(
    telling: Telling,
    page: Page<'a, '_, C>,
    statement: Statement<'a>,
    value: u64,
    out: &mut Watched<W>,
)
    requires { IsNodeOf (bytes_of page.policy) (statement_node statement) }
    ensures { Puts W.contents out.old out.new
        (spelled telling (choice_text (choice (texts_of page.entry) (unguarded (world_of page.entry))
        (statement_node statement.entry) value))) }
{
    match option_of_value(page.policy().forms(), statement, value) {
        Some(option) => put_spelled(telling, page.text(option.op().text()).chars(), out),
        None => out.put(b"?"),
    }
}

// Writes the text of the option that a value of a ONE_OF is, between angle brackets.
fn put_one_of<'a, C: Conditions, W: Write>(
    telling: Telling,
    page: Page<'a, '_, C>,
    statement: Statement<'a>,
    value: Value<'_>,
    out: &mut Watched<W>,
)
    requires { IsNodeOf (bytes_of page.policy) (statement_node statement) }
    ensures { Puts W.contents out.old out.new
        (spelled telling (one_of_shown (texts_of page.entry) (unguarded (world_of page.entry))
        (statement_node statement.entry) (value_of value.entry))) }
{
    if let Value::Number(number) = value {
        out.put(b"<");
        put_choice(telling, page, statement, number, out);
        out.put(b">");
    }
}

// Writes the texts of the options of elements, each behind a comma and a space.
fn put_later_choices<'a, C: Conditions, W: Write>(
    telling: Telling,
    page: Page<'a, '_, C>,
    statement: Statement<'a>,
    items: StoredItems<'_>,
    out: &mut Watched<W>,
)
    requires { IsNodeOf (bytes_of page.policy) (statement_node statement) }
    ensures { Puts W.contents out.old out.new
        (spelled telling (later_text (choices (texts_of page.entry) (unguarded (world_of page.entry))
        (statement_node statement.entry) (stored_left items.entry)))) }
{
    let mut items = items;
    while let Some(item) = items.step() {
        out.put(b", ");
        put_choice(telling, page, statement, item, out);
    }
}

// Writes the texts of the options that the elements of an ORDERED_LIST are.
fn put_list<'a, C: Conditions, W: Write>(
    telling: Telling,
    page: Page<'a, '_, C>,
    statement: Statement<'a>,
    value: Value<'_>,
    out: &mut Watched<W>,
)
    requires { IsNodeOf (bytes_of page.policy) (statement_node statement) }
    ensures { Puts W.contents out.old out.new
        (spelled telling (list_shown (texts_of page.entry) (unguarded (world_of page.entry))
        (statement_node statement.entry) (value_of value.entry))) }
{
    let Value::Buffer(bytes) = value else {
        return;
    };
    let mut items = StoredItems::new(bytes, element_width(statement));
    if let Some(first) = items.step() {
        put_choice(telling, page, statement, first, out);
        put_later_choices(telling, page, statement, items, out);
    }
}

// Writes the characters of a value that has no options.
fn put_chars<C: Conditions, W: Write>(
    telling: Telling,
    value: RowValue<'_, '_, C>,
    out: &mut Watched<W>,
)
    ensures { Puts W.contents out.old out.new (spelled telling (value_text value.entry)) }
{
    let mut text = value.chars();
    while let Some(c) = text.next() {
        put_spelled_char(telling, c, out);
    }
}

/// Writes the value of a question as a page would show it if nothing were hidden.
pub(crate) fn put_value<'a, C: Conditions, W: Write>(
    telling: Telling,
    page: Page<'a, '_, C>,
    question: Question<'a>,
    out: &mut Watched<W>,
)
    requires node { IsNodeOf (bytes_of page.policy) (question_node question) }
    requires asked { question_view question
        ≡ asked (nodes_of (bytes_of page.policy)) (question_node question) }
    ensures { Puts W.contents out.old out.new
        (spec.value_told telling (seen_in page.entry) (question_node question.entry)) }
{
    let statement = question.statement();
    match statement.kind() {
        StatementKind::OneOf(_) => put_one_of(
            telling,
            page,
            statement,
            read_value(question, page.stores()),
            out,
        ),
        StatementKind::OrderedList(_) => put_list(
            telling,
            page,
            statement,
            read_value(question, page.stores()),
            out,
        ),
        _ => put_chars(telling, page.value_of(statement), out),
    }
}

// Writes a value that is a text.
fn put_text<W: Write>(telling: Telling, value: Value<'_>, out: &mut Watched<W>)
    requires { (units : List ℕ) → value_of value ≡ text_value units → length units % 2 ≡ 0 }
    ensures { Puts W.contents out.old out.new (spec.text_told telling (value_of value.entry)) }
{
    if let Value::Text(units) = value {
        out.put(b" value ");
        put_spelled(telling, Shown::Units(Units::new(units)).chars(), out);
    }
}

/// Writes a value as scripts take it, behind its word, where there is one.
pub(crate) fn put_script<C: Conditions, W: Write>(
    telling: Telling,
    statement: Statement<'_>,
    value: Value<'_>,
    out: &mut Watched<W>,
)
    requires { (units : List ℕ) → value_of value ≡ text_value units → length units % 2 ≡ 0 }
    ensures { Puts W.contents out.old out.new
        (spec.script_told telling (statement_node statement.entry) (value_of value.entry)) }
{
    match statement.kind() {
        StatementKind::String(_) => put_text(telling, value, out),
        _ => put_script_value::<C, W>(b" value ", statement, value, out),
    }
}

/// Writes where a field lies, as NAME:0xOFFSET(WIDTH).
pub(crate) fn put_field<W: Write>(
    telling: Telling,
    names: &StoreNames<'_>,
    field: FieldRange,
    out: &mut Watched<W>,
)
    ensures { Puts W.contents out.old out.new
        (spec.field_told telling (nodes_of names.now) (range_in field)) }
{
    put_name(telling, names.name(field.store), out);
    out.put(b":0x");
    put_hexadecimal(out, u64::from(field.offset));
    out.put(b"(");
    out.put_decimal(field.width as u64);
    out.put(b")");
}

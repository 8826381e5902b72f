//! Values as audits tell them: the text of an option also where the option is hidden.

ghost use Rattle.std.specs.Prelude.{◌≡◌, ◌==◌, option_map};
ghost use Rattle.std.specs.List.{find};
ghost use Rattle.hii_bytes.specs.Watching.{Puts};
ghost use Rattle.ifr_opcodes.specs.Fields.{option_value};
ghost use Rattle.ifr_opcodes.specs.Forest.{Node};
ghost use Rattle.ifr_expr.specs.code.Views.{value_of};
ghost use Rattle.ifr_nodes.specs.Nodes.{nodes_of, options};
ghost use Rattle.ifr_nodes.specs.code.Checked.{IsNodeOf};
ghost use Rattle.ifr_scopes.specs.code.Lists.{statement_node};
ghost use Rattle.ifr_scopes.specs.code.Parts.{option_node};
ghost use Rattle.hii_values.specs.code.StoredLeft.{stored_left};
ghost use Rattle.hii_questions.specs.Fields.{asked};
ghost use Rattle.hii_questions.specs.code.Views.{question_node, question_view};
ghost use Rattle.guard_policy.specs.code.Views.{bytes_of};
ghost use Rattle.form_page.specs.RowValues.{choice, choice_text, later_text, list_shown, one_of_shown};
ghost use Rattle.form_page.specs.code.PageViews.{texts_of, world_of};
ghost use Rattle.form_page.specs.code.RowViews.{value_text};
ghost use Rattle.audit_json.specs.Json.{json_text};
ghost use Rattle.question_audit.specs.QuestionLines.{has_no_text, told_value, unguarded, value_told};
ghost use Rattle.question_audit.specs.code.Choices.{choices};
ghost use Rattle.question_audit.specs.code.Escaped.{escaped_text};
ghost use Rattle.question_audit.specs.code.Pages.{audited};

use crate::escaping::Escaping;
use form_page::{Page, RowValue};
use guard_policy::Conditions;
use hii_bytes::Watched;
use hii_questions::{Question, StoredItems, element_width, read_value};
use ifr_expr::Value;
use ifr_scopes::{Forms, OptionView, Statement, StatementKind};
use std::io::Write;

/// The first option of a question, by place, that has a value, whether it is seen or not.
pub fn option_of_value<'a>(
    forms: &Forms<'a>,
    statement: Statement<'a>,
    value: u64,
) -> Option<OptionView<'a>>
    requires { IsNodeOf forms.now (statement_node statement) }
    ensures { option_map option_node result
        ≡ find (λ (o : Node). option_value o.op == value) (options (statement_node statement.entry)) }
{
    let mut options = forms.options_of(statement);
    while let Some(option) = options.next() {
        if option.op().value() == value {
            return Some(option);
        }
    }
    None
}

// Writes the text of the option of a value, or a question mark where there is none.
fn put_choice<'a, C: Conditions, W: Write>(
    page: Page<'a, '_, C>,
    statement: Statement<'a>,
    value: u64,
    how: Escaping,
    out: &mut Watched<W>,
)
    requires { IsNodeOf (bytes_of page.policy) (statement_node statement) }
    ensures { Puts W.contents out.old out.new
        (escaped_text how (choice_text (choice (texts_of page.entry) (unguarded (world_of page.entry))
        (statement_node statement.entry) value))) }
{
    match option_of_value(page.policy().forms(), statement, value) {
        Some(option) => how.put_shown(page.text(option.op().text()).chars(), out),
        None => out.put(b"?"),
    }
}

// Writes the text of the option that a value of a ONE_OF is, between angle brackets.
fn put_one_of<'a, C: Conditions, W: Write>(
    page: Page<'a, '_, C>,
    statement: Statement<'a>,
    value: Value<'_>,
    how: Escaping,
    out: &mut Watched<W>,
)
    requires { IsNodeOf (bytes_of page.policy) (statement_node statement) }
    ensures { Puts W.contents out.old out.new
        (escaped_text how (one_of_shown (texts_of page.entry) (unguarded (world_of page.entry))
        (statement_node statement.entry) (value_of value.entry))) }
{
    if let Value::Number(number) = value {
        out.put(b"<");
        put_choice(page, statement, number, how, out);
        out.put(b">");
    }
}

// Writes the texts of the options of elements, each behind a comma and a space.
fn put_later_choices<'a, C: Conditions, W: Write>(
    page: Page<'a, '_, C>,
    statement: Statement<'a>,
    items: StoredItems<'_>,
    how: Escaping,
    out: &mut Watched<W>,
)
    requires { IsNodeOf (bytes_of page.policy) (statement_node statement) }
    ensures { Puts W.contents out.old out.new
        (escaped_text how (later_text (choices (texts_of page.entry) (unguarded (world_of page.entry))
        (statement_node statement.entry) (stored_left items.entry)))) }
{
    let mut items = items;
    while let Some(item) = items.step() {
        out.put(b", ");
        put_choice(page, statement, item, how, out);
    }
}

// Writes the texts of the options that the elements of an ORDERED_LIST are.
fn put_list<'a, C: Conditions, W: Write>(
    page: Page<'a, '_, C>,
    statement: Statement<'a>,
    value: Value<'_>,
    how: Escaping,
    out: &mut Watched<W>,
)
    requires { IsNodeOf (bytes_of page.policy) (statement_node statement) }
    ensures { Puts W.contents out.old out.new
        (escaped_text how (list_shown (texts_of page.entry) (unguarded (world_of page.entry))
        (statement_node statement.entry) (value_of value.entry))) }
{
    let Value::Buffer(bytes) = value else {
        return;
    };
    let mut items = StoredItems::new(bytes, element_width(statement));
    if let Some(first) = items.step() {
        put_choice(page, statement, first, how, out);
        put_later_choices(page, statement, items, how, out);
    }
}

// Writes the characters of a value that has no options.
fn put_value_chars<C: Conditions, W: Write>(
    value: RowValue<'_, '_, C>,
    how: Escaping,
    out: &mut Watched<W>,
)
    ensures { Puts W.contents out.old out.new (escaped_text how (value_text value.entry)) }
{
    let mut text = value.chars();
    while let Some(c) = text.next() {
        how.put_char(c, out);
    }
}

// Writes the value of a question as a page would show it if nothing were hidden.
fn put_value<'a, C: Conditions, W: Write>(
    page: Page<'a, '_, C>,
    question: Question<'a>,
    how: Escaping,
    out: &mut Watched<W>,
)
    requires node { IsNodeOf (bytes_of page.policy) (question_node question) }
    requires asked { question_view question
        ≡ asked (nodes_of (bytes_of page.policy)) (question_node question) }
    ensures { Puts W.contents out.old out.new
        (escaped_text how (value_told (audited page.entry) (question_node question.entry))) }
{
    let statement = question.statement();
    match statement.kind() {
        StatementKind::OneOf(_) => {
            put_one_of(
                page,
                statement,
                read_value(question, page.stores()),
                how,
                out,
            )
        }
        StatementKind::OrderedList(_) => {
            put_list(
                page,
                statement,
                read_value(question, page.stores()),
                how,
                out,
            )
        }
        _ => put_value_chars(page.value_of(statement), how, out),
    }
}

/// Writes the value of a question as a page would show it if nothing were hidden.
pub fn put_told_value<'a, C: Conditions, W: Write>(
    page: Page<'a, '_, C>,
    question: Question<'a>,
    out: &mut Watched<W>,
)
    requires node { IsNodeOf (bytes_of page.policy) (question_node question) }
    requires asked { question_view question
        ≡ asked (nodes_of (bytes_of page.policy)) (question_node question) }
    ensures { Puts W.contents out.old out.new
        (told_value (audited page.entry) (question_node question.entry)) }
{
    put_value(page, question, Escaping::Line, out);
}

/// Writes the value of a question in this way as a string of JSON.
pub fn put_json_value<'a, C: Conditions, W: Write>(
    page: Page<'a, '_, C>,
    question: Question<'a>,
    out: &mut Watched<W>,
)
    requires node { IsNodeOf (bytes_of page.policy) (question_node question) }
    requires asked { question_view question
        ≡ asked (nodes_of (bytes_of page.policy)) (question_node question) }
    ensures { Puts W.contents out.old out.new
        (json_text (value_told (audited page.entry) (question_node question.entry))) }
{
    out.put(b"\"");
    put_value(page, question, Escaping::Json, out);
    out.put(b"\"");
}

// Whether the text of the option of a value is empty; where there is none, a question mark stands for it.
fn is_choice_empty<'a, C: Conditions>(
    page: Page<'a, '_, C>,
    statement: Statement<'a>,
    value: u64,
) -> bool
    requires { IsNodeOf (bytes_of page.policy) (statement_node statement) }
    ensures { result ≡ has_no_text (choice_text (choice (texts_of page.entry)
        (unguarded (world_of page.entry)) (statement_node statement.entry) value)) }
{
    match option_of_value(page.policy().forms(), statement, value) {
        Some(option) => page.text(option.op().text()).chars().next().is_none(),
        None => false,
    }
}

// Whether nothing shows of a value of an ORDERED_LIST: it has no elements, or one whose option has no text.
fn shows_no_list<'a, C: Conditions>(
    page: Page<'a, '_, C>,
    statement: Statement<'a>,
    value: Value<'_>,
) -> bool
    requires { IsNodeOf (bytes_of page.policy) (statement_node statement) }
    ensures { result ≡ has_no_text (list_shown (texts_of page.entry) (unguarded (world_of page.entry))
        (statement_node statement.entry) (value_of value.entry)) }
{
    let Value::Buffer(bytes) = value else {
        return true;
    };
    let mut items = StoredItems::new(bytes, element_width(statement));
    let Some(first) = items.step() else {
        return true;
    };
    items.step().is_none() && is_choice_empty(page, statement, first)
}

/// Whether nothing shows of the value of a question in this way.
pub fn shows_nothing<'a, C: Conditions>(page: Page<'a, '_, C>, question: Question<'a>) -> bool
    requires node { IsNodeOf (bytes_of page.policy) (question_node question) }
    requires asked { question_view question
        ≡ asked (nodes_of (bytes_of page.policy)) (question_node question) }
    ensures { result ≡ has_no_text (value_told (audited page.entry) (question_node question.entry)) }
{
    let statement = question.statement();
    match statement.kind() {
        StatementKind::OneOf(_) => {
            !matches!(read_value(question, page.stores()), Value::Number(_))
        }
        StatementKind::OrderedList(_) => {
            shows_no_list(page, statement, read_value(question, page.stores()))
        }
        _ => page.value_of(statement).chars().next().is_none(),
    }
}

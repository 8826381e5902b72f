//! The value of a question and its defaults.

ghost use Rattle.std.specs.Prelude.{◌≡◌, ◌%◌, ℕ, List, Some, is_some, length};
ghost use Rattle.hii_bytes.specs.Watching.{Puts};
ghost use Rattle.ifr_expr.specs.Values.{text as text_value};
ghost use Rattle.ifr_expr.specs.code.Views.{value_of};
ghost use Rattle.ifr_nodes.specs.code.Checked.{IsNodeOf};
ghost use Rattle.ifr_scopes.specs.code.Lists.{statement_node};
ghost use Rattle.hii_questions.specs.code.LyingIn.{LiesIn};
ghost use Rattle.hii_questions.specs.code.Views.{question_node, question_view};
ghost use Rattle.hii_varstore.specs.Stores.{shape_of};
ghost use Rattle.guard_policy.specs.code.Views.{bytes_of};
ghost use Rattle.question_audit.specs.ScriptValues.{script_value};
ghost use Rattle.question_audit.specs.code.Pages.{audited};
ghost use Rattle.question_audit.specs.QuestionFacts.{choice_behind, default_fact, named_default, option_behind, value_facts, value_line, value_text};

use crate::defaults::{give_back, take_default};
use crate::facts::put_column;
use crate::script_values::put_script_value;
use crate::shown_values::option_of_value;
use audit_text::put_safe_shown;
use form_page::Page;
use guard_policy::Conditions;
use hii_bytes::Watched;
use hii_questions::{Question, read_value};
use hii_varstore::Stores;
use ifr_defaults::{DEFAULT_CLASS_MANUFACTURING, DEFAULT_CLASS_STANDARD};
use ifr_expr::Value;
use ifr_opcodes::ONE_OF;
use ifr_scopes::{Statement, StatementKind};
use std::io::Write;

// Writes the text of the option that a number is, if there is one, behind a space.
fn put_choice<'a, C: Conditions, W: Write>(
    page: Page<'a, '_, C>,
    statement: Statement<'a>,
    value: Value<'_>,
    out: &mut Watched<W>,
)
    requires { IsNodeOf (bytes_of page.policy) (statement_node statement) }
    ensures { Puts W.contents out.old out.new
        (choice_behind (audited page.entry) (statement_node statement.entry)
        (value_of value.entry)) }
{
    if let Value::Number(number) = value {
        if let Some(option) = option_of_value(page.policy().forms(), statement, number) {
            out.put(b" ");
            put_safe_shown(page.text(option.op().text()).chars(), out);
        }
    }
}

// Writes the text of the option that a value of a ONE_OF is.
fn put_option_behind<'a, C: Conditions, W: Write>(
    page: Page<'a, '_, C>,
    statement: Statement<'a>,
    value: Value<'_>,
    out: &mut Watched<W>,
)
    requires { IsNodeOf (bytes_of page.policy) (statement_node statement) }
    ensures { Puts W.contents out.old out.new
        (option_behind (audited page.entry) (statement_node statement.entry)
        (value_of value.entry)) }
{
    if statement.op().op.code == ONE_OF {
        put_choice(page, statement, value, out);
    }
}

// Writes a value as scripts take it, and the text of the option that it is.
fn put_value_text<'a, C: Conditions, W: Write>(
    page: Page<'a, '_, C>,
    statement: Statement<'a>,
    value: Value<'_>,
    out: &mut Watched<W>,
)
    requires node { IsNodeOf (bytes_of page.policy) (statement_node statement) }
    requires whole { (units : List ℕ) → value_of value ≡ text_value units → length units % 2 ≡ 0 }
    ensures { Puts W.contents out.old out.new
        (value_text (audited page.entry) (statement_node statement.entry)
        (value_of value.entry)) }
{
    put_script_value::<C, W>(b"", statement, value, out);
    put_option_behind(page, statement, value, out);
}

// Writes the value of a question, if it has one.
fn put_value_line<'a, C: Conditions, W: Write>(
    page: Page<'a, '_, C>,
    statement: Statement<'a>,
    value: Value<'_>,
    out: &mut Watched<W>,
)
    requires node { IsNodeOf (bytes_of page.policy) (statement_node statement) }
    requires whole { (units : List ℕ) → value_of value ≡ text_value units → length units % 2 ≡ 0 }
    ensures { Puts W.contents out.old out.new
        (value_line (audited page.entry) (statement_node statement.entry)
        (value_of value.entry)) }
{
    if let Value::Undefined = value {
        return;
    }
    put_column(b"value", out);
    put_value_text(page, statement, value, out);
    out.put(b"\n");
}

/// Whether a value of a question is written for scripts.
pub fn has_script(statement: Statement<'_>, value: Value<'_>) -> bool
    ensures { result
        ≡ is_some (script_value (statement_node statement.entry) (value_of value.entry)) }
{
    match statement.kind() {
        StatementKind::Checkbox(_) => matches!(value, Value::Boolean(_)),
        StatementKind::Numeric(_) => matches!(value, Value::Number(_)),
        StatementKind::OneOf(_) => matches!(value, Value::Number(_)),
        StatementKind::String(_) => matches!(value, Value::Text(_)),
        StatementKind::OrderedList(_) => matches!(value, Value::Buffer(_)),
        _ => false,
    }
}

// Writes a value as the default of a class with a name, if it is written for scripts.
fn put_named_default<'a, C: Conditions, W: Write>(
    page: Page<'a, '_, C>,
    statement: Statement<'a>,
    value: Value<'_>,
    name: &[u8],
    out: &mut Watched<W>,
)
    requires node { IsNodeOf (bytes_of page.policy) (statement_node statement) }
    requires whole { (units : List ℕ) → value_of value ≡ text_value units → length units % 2 ≡ 0 }
    ensures { Puts W.contents out.old out.new
        (named_default (audited page.entry) (statement_node statement.entry) name.now
        (Some (value_of value.entry))) }
{
    if !has_script(statement, value) {
        return;
    }
    put_column(b"default", out);
    put_value_text(page, statement, value, out);
    out.put(b" (");
    out.put(name);
    out.put(b")\n");
}

// Writes the default of a question for a class with a name, where there is one that the question takes. `spare` are stores that hold
// the same as those of the page, before and after.
fn put_default_fact<'a, C: Conditions, W: Write>(
    page: Page<'a, '_, C>,
    question: Question<'a>,
    class: u16,
    name: &[u8],
    spare: &mut Stores,
    out: &mut Watched<W>,
)
    requires node { IsNodeOf (bytes_of page.policy) (question_node question) }
    requires lies { LiesIn (shape_of page.stores.now) (question_view question) }
    requires same { spare.old ≡ page.stores.now }
    ensures same { spare.new ≡ page.entry.stores.now }
    ensures text { Puts W.contents out.old out.new
        (default_fact (audited page.entry) (question_view question.entry) class name.now) }
{
    if let Some(field) = take_default(page, question, class, spare) {
        let value = read_value(question, spare);
        put_named_default(page, question.statement(), value, name, out);
        give_back(page, field, spare);
    }
}

/// Writes the value of a question, and its defaults for the classes standard and manufacturing. `spare` are stores that hold the
/// same as those of the page, before and after.
pub(crate) fn put_value_facts<'a, C: Conditions, W: Write>(
    page: Page<'a, '_, C>,
    question: Question<'a>,
    spare: &mut Stores,
    out: &mut Watched<W>,
)
    requires node { IsNodeOf (bytes_of page.policy) (question_node question) }
    requires lies { LiesIn (shape_of page.stores.now) (question_view question) }
    requires same { spare.old ≡ page.stores.now }
    ensures { Puts W.contents out.old out.new
        (value_facts (audited page.entry) (question_view question.entry)) }
{
    let value = read_value(question, page.stores());
    put_value_line(page, question.statement(), value, out);
    put_default_fact(
        page,
        question,
        DEFAULT_CLASS_STANDARD,
        b"standard",
        spare,
        out,
    );
    put_default_fact(
        page,
        question,
        DEFAULT_CLASS_MANUFACTURING,
        b"manufacturing",
        spare,
        out,
    );
}

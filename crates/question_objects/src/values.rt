//! The value of a question, and its defaults.

ghost use Rattle.std.specs.Prelude.{◌≡◌, ◌%◌, ℕ, List, codes, length};
ghost use Rattle.hii_bytes.specs.Watching.{Puts};
ghost use Rattle.ifr_expr.specs.Values.{text as text_value};
ghost use Rattle.ifr_expr.specs.code.Views.{value_of};
ghost use Rattle.ifr_nodes.specs.Nodes.{nodes_of};
ghost use Rattle.ifr_nodes.specs.code.Checked.{IsNodeOf};
ghost use Rattle.ifr_scopes.specs.code.Lists.{statement_node};
ghost use Rattle.hii_questions.specs.Fields.{asked};
ghost use Rattle.hii_questions.specs.code.LyingIn.{LiesIn};
ghost use Rattle.hii_questions.specs.code.Views.{question_node, question_view};
ghost use Rattle.hii_varstore.specs.Stores.{shape_of};
ghost use Rattle.guard_policy.specs.code.Views.{bytes_of};
ghost use Rattle.question_audit.specs.QuestionLines.{value_told};
ghost use Rattle.question_audit.specs.ScriptValues.{script_value, string_characters};
ghost use Rattle.question_audit.specs.code.Pages.{audited};
ghost use Rattle.question_objects.specs.Members.{shown_member};
ghost use Rattle.question_objects.specs.Values.{default_member, script_member, text_if_there, value_members, word_if_there};

use audit_json::{put_member, put_shown};
use form_page::Page;
use guard_policy::Conditions;
use hii_bytes::Watched;
use hii_languages::Shown;
use hii_questions::{Question, read_value};
use hii_varstore::Stores;
use ifr_defaults::{DEFAULT_CLASS_MANUFACTURING, DEFAULT_CLASS_STANDARD};
use ifr_expr::Value;
use ifr_opcodes::STRING;
use ifr_scopes::Statement;
use question_audit::{
    give_back, has_script, put_json_value, put_script_value, shows_nothing, take_default,
};
use sibt_strings::Units;
use std::io::Write;

// Writes a text, if it is one.
fn put_string_value<W: Write>(key: &[u8], value: Value<'_>, out: &mut Watched<W>)
    requires { (units : List ℕ) → value_of value ≡ text_value units → length units % 2 ≡ 0 }
    ensures { Puts W.contents out.old out.new
        (text_if_there key.now (string_characters (value_of value.entry))) }
{
    if let Value::Text(units) = value {
        put_shown(key, Shown::Units(Units::new(units)).chars(), out);
    }
}

// Writes a value of digits and signs, if it is one.
fn put_word_value<C: Conditions, W: Write>(
    key: &[u8],
    statement: Statement<'_>,
    value: Value<'_>,
    out: &mut Watched<W>,
)
    requires { (units : List ℕ) → value_of value ≡ text_value units → length units % 2 ≡ 0 }
    ensures { Puts W.contents out.old out.new
        (word_if_there key.now (script_value (statement_node statement.entry) (value_of value.entry))) }
{
    if has_script(statement, value) {
        put_member(key, out);
        put_script_value::<C, W>(b"\"", statement, value, out);
        out.put(b"\"");
    }
}

/// Writes a value as scripts take it, where they take one.
pub fn put_script<C: Conditions, W: Write>(
    key: &[u8],
    statement: Statement<'_>,
    value: Value<'_>,
    out: &mut Watched<W>,
)
    requires { (units : List ℕ) → value_of value ≡ text_value units → length units % 2 ≡ 0 }
    ensures { Puts W.contents out.old out.new
        (script_member key.now (statement_node statement.entry) (value_of value.entry)) }
{
    if statement.op().op.code == STRING {
        put_string_value(key, value, out);
    } else {
        put_word_value::<C, W>(key, statement, value, out);
    }
}

// Writes what a page would show of the value of a question if nothing were hidden, where this is something.
fn put_shown_value<'a, C: Conditions, W: Write>(
    page: Page<'a, '_, C>,
    question: Question<'a>,
    out: &mut Watched<W>,
)
    requires node { IsNodeOf (bytes_of page.policy) (question_node question) }
    requires asked { question_view question
        ≡ asked (nodes_of (bytes_of page.policy)) (question_node question) }
    ensures { Puts W.contents out.old out.new
        (shown_member (codes "shown") (value_told (audited page.entry) (question_node question.entry))) }
{
    if !shows_nothing(page, question) {
        put_member(b"shown", out);
        put_json_value(page, question, out);
    }
}

// Writes the default of a question for a class, where there is one that the question takes. `spare` are stores that hold the same as
// those of the page, before and after.
fn put_default<'a, C: Conditions, W: Write>(
    page: Page<'a, '_, C>,
    question: Question<'a>,
    class: u16,
    key: &[u8],
    spare: &mut Stores,
    out: &mut Watched<W>,
)
    requires lies { LiesIn (shape_of page.stores.now) (question_view question) }
    requires same { spare.old ≡ page.stores.now }
    ensures same { spare.new ≡ page.entry.stores.now }
    ensures text { Puts W.contents out.old out.new
        (default_member (audited page.entry) (question_view question.entry) class key.now) }
{
    if let Some(field) = take_default(page, question, class, spare) {
        let value = read_value(question, spare);
        put_script::<C, W>(key, question.statement(), value, out);
        give_back(page, field, spare);
    }
}

/// Writes the value of a question, what shows of it, and its defaults for the classes standard and manufacturing. `spare` are stores
/// that hold the same as those of the page, before and after.
pub(crate) fn put_values<'a, C: Conditions, W: Write>(
    page: Page<'a, '_, C>,
    question: Question<'a>,
    spare: &mut Stores,
    out: &mut Watched<W>,
)
    requires node { IsNodeOf (bytes_of page.policy) (question_node question) }
    requires asked { question_view question
        ≡ asked (nodes_of (bytes_of page.policy)) (question_node question) }
    requires lies { LiesIn (shape_of page.stores.now) (question_view question) }
    requires same { spare.old ≡ page.stores.now }
    ensures same { spare.new ≡ page.entry.stores.now }
    ensures text { Puts W.contents out.old out.new
        (value_members (audited page.entry) (question_view question.entry)) }
{
    let value = read_value(question, page.stores());
    put_script::<C, W>(b"value", question.statement(), value, out);
    put_shown_value(page, question, out);
    put_default(
        page,
        question,
        DEFAULT_CLASS_STANDARD,
        b"default",
        spare,
        out,
    );
    put_default(
        page,
        question,
        DEFAULT_CLASS_MANUFACTURING,
        b"manufacturing",
        spare,
        out,
    );
}

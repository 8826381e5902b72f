//! The defaults of questions.

ghost use Rattle.std.specs.Prelude.{◌≡◌, ◌%◌, ℕ, List, [], Some, IfOk, OnOk, OnErr, length};
ghost use Rattle.hii_bytes.specs.Watching.{Puts};
ghost use Rattle.ifr_expr.specs.Values.{text as text_value};
ghost use Rattle.ifr_expr.specs.code.Views.{value_of};
ghost use Rattle.ifr_nodes.specs.code.Checked.{IsNodeOf};
ghost use Rattle.ifr_scopes.specs.code.Lists.{statement_node};
ghost use Rattle.hii_questions.specs.code.LyingIn.{LiesIn};
ghost use Rattle.hii_questions.specs.code.Views.{question_node, question_view};
ghost use Rattle.hii_varstore.specs.Stores.{shape_of};
ghost use Rattle.guard_policy.specs.code.Views.{bytes_of};
ghost use Rattle.question_audit.specs.ScriptValues.{behind, stored_value};
ghost use Rattle.question_audit.specs.code.Pages.{audited};
ghost use Rattle.question_rows.specs.Defaults.{choice_behind, default_part, default_words, option_behind, taken_default};

use crate::buffers::script_text;
use crate::elements::put_html_line;
use crate::shown::on_or_off;
use audit_html::put_html_shown;
use form_page::Page;
use guard_policy::Conditions;
use hii_bytes::Watched;
use hii_questions::{Question, read_value};
use hii_varstore::Stores;
use ifr_defaults::DEFAULT_CLASS_STANDARD;
use ifr_expr::Value;
use ifr_opcodes::{CHECKBOX, ONE_OF};
use ifr_scopes::Statement;
use question_audit::{give_back, has_script, option_of_value, take_default};
use std::alloc::{AllocError, Global};
use std::io::Write;

// Writes the text of the option that a number is, if there is one, behind a space.
fn put_choice<'a, C: Conditions, W: Write>(
    page: Page<'a, '_, C>,
    statement: Statement<'a>,
    value: Value<'_>,
    out: &mut Watched<W>,
)
    requires { IsNodeOf (bytes_of page.policy) (statement_node statement) }
    ensures { Puts W.contents out.old out.new
        (choice_behind (audited page.entry) (statement_node statement.entry) (value_of value.entry)) }
{
    if let Value::Number(number) = value {
        if let Some(option) = option_of_value(page.policy().forms(), statement, number) {
            out.put(b" ");
            put_html_shown(page.text(option.op().text()).chars(), out);
        }
    }
}

// Writes the text of the option that a value of a ONE_OF is.
fn put_option_behind<'a, C: Conditions, W: Write>(
    page: Page<'a, '_, C>,
    statement: Statement<'a>,
    value: Value<'_>,
    out: &mut Watched<W>,
)
    requires { IsNodeOf (bytes_of page.policy) (statement_node statement) }
    ensures { Puts W.contents out.old out.new
        (option_behind (audited page.entry) (statement_node statement.entry) (value_of value.entry)) }
{
    if statement.op().op.code == ONE_OF {
        put_choice(page, statement, value, out);
    }
}

// Writes a value that scripts take in these words.
fn put_default_words<'a, C: Conditions, W: Write>(
    page: Page<'a, '_, C>,
    statement: Statement<'a>,
    value: Value<'_>,
    script: &[u8],
    out: &mut Watched<W>,
)
    requires { IsNodeOf (bytes_of page.policy) (statement_node statement) }
    ensures { Puts W.contents out.old out.new
        (default_words (audited page.entry) (statement_node statement.entry) (value_of value.entry) script.now) }
{
    if statement.op().op.code == CHECKBOX {
        out.put(on_or_off(value));
        return;
    }
    out.put(b"<bdi>");
    put_html_line(script, out);
    put_option_behind(page, statement, value, out);
    out.put(b"</bdi>");
}

// Writes a default that a question has taken, where scripts take it in other words than the value that is stored. Where an allocation
// fails nothing is written.
fn put_taken<'a, C: Conditions, W: Write>(
    alloc: Global,
    page: Page<'a, '_, C>,
    statement: Statement<'a>,
    stored: &[u8],
    value: Value<'_>,
    out: &mut Watched<W>,
) -> Result<(), AllocError>
    requires node { IsNodeOf (bytes_of page.policy) (statement_node statement) }
    requires whole { (units : List ℕ) → value_of value ≡ text_value units → length units % 2 ≡ 0 }
    ensures told { OnOk result (Puts W.contents out.old out.new
        (taken_default (audited page.entry) (statement_node statement.entry) stored.now (Some (value_of value.entry)))) }
    ensures nothing { OnErr result (out.new ≡ out.old) }
{
    if !has_script(statement, value) {
        return Ok(());
    }
    let script = script_text::<C>(alloc, statement, value)?;
    if &script[..] == stored {
        return Ok(());
    }
    out.put(b"<p class=\"small\">");
    out.put(b"default ");
    put_default_words(page, statement, value, &script, out);
    out.put(b"</p>");
    Ok(())
}

// The value of a question as scripts take it, or no bytes where they take none.
fn stored_text<'a, C: Conditions>(
    alloc: Global,
    page: Page<'a, '_, C>,
    question: Question<'a>,
) -> Result<Vec<u8>, AllocError>
    ensures { IfOk result (λ bytes. bytes.items
        ≡ behind [] (stored_value page.entry.stores.now (question_view question.entry))) }
{
    script_text::<C>(
        alloc,
        question.statement(),
        read_value(question, page.stores()),
    )
}

/// Writes the default of a question for the class standard, where the question takes it and has another value. `spare` are stores that
/// hold the same as those of the page, before and after. Where an allocation fails nothing is written.
pub(crate) fn put_default<'a, C: Conditions, W: Write>(
    alloc: Global,
    page: Page<'a, '_, C>,
    question: Question<'a>,
    spare: &mut Stores,
    out: &mut Watched<W>,
) -> Result<(), AllocError>
    requires node { IsNodeOf (bytes_of page.policy) (question_node question) }
    requires lies { LiesIn (shape_of page.stores.now) (question_view question) }
    requires same { spare.old ≡ page.stores.now }
    ensures same { spare.new ≡ page.entry.stores.now }
    ensures told { OnOk result (Puts W.contents out.old out.new
        (default_part (audited page.entry) (question_view question.entry))) }
    ensures nothing { OnErr result (out.new ≡ out.old) }
{
    let stored = stored_text(alloc, page, question)?;
    let Some(field) = take_default(page, question, DEFAULT_CLASS_STANDARD, spare) else {
        return Ok(());
    };
    let value = read_value(question, spare);
    let told = put_taken(alloc, page, question.statement(), &stored, value, out);
    give_back(page, field, spare);
    told
}

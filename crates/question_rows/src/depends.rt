//! On which questions it depends whether questions may be changed.

ghost use Rattle.std.specs.Prelude.{◌≡◌, IfOk, OnOk, OnErr};
ghost use Rattle.hii_bytes.specs.Watching.{Puts, pen_of};
ghost use Rattle.ifr_nodes.specs.Nodes.{nodes_of};
ghost use Rattle.ifr_nodes.specs.code.Checked.{IsNodeOf};
ghost use Rattle.ifr_scopes.specs.code.Lists.{statement_node};
ghost use Rattle.hii_questions.specs.Fields.{asked};
ghost use Rattle.hii_questions.specs.code.Views.{question_node, question_view};
ghost use Rattle.guard_policy.specs.code.Views.{bytes_of};
ghost use Rattle.question_audit.specs.code.Pages.{audited};
ghost use Rattle.question_audit.specs.code.Beginnings.{Begins};
ghost use Rattle.question_rows.specs.Dependences.{answer_words, dependence_part, depends_part, depends_start, known_dependence, unknown_dependence};

use crate::buffers::text_in;
use crate::links::put_question_link;
use crate::shown::shown_text;
use form_page::Page;
use guard_policy::Conditions;
use hii_bytes::Watched;
use hii_questions::{Question, read_value};
use ifr_expr::Value;
use ifr_scopes::Statement;
use question_audit::{When, support_of};
use std::alloc::{AllocError, Global};
use std::io::Write;

// What stands before a question on which it depends.
fn start_of(when: When) -> &'static [u8]
    ensures { result.now ≡ depends_start when }
{
    match when {
        When::AtCommands => b"depends on ",
        When::AtOpening => b"depends at opening on ",
    }
}

// Writes what a question answers, or that it has no answer. Where an allocation fails nothing is written.
fn put_answer<'a, C: Conditions, W: Write>(
    alloc: Global,
    page: Page<'a, '_, C>,
    question: Question<'a>,
    out: &mut Watched<W>,
) -> Result<(), AllocError>
    requires node { IsNodeOf (bytes_of page.policy) (question_node question) }
    requires asked { question_view question
        ≡ asked (nodes_of (bytes_of page.policy)) (question_node question) }
    ensures told { OnOk result (Puts W.contents out.old out.new
        (answer_words (audited page.entry) (question_view question.entry))) }
    ensures nothing { OnErr result (out.new ≡ out.old) }
{
    if let Value::Undefined = read_value(question, page.stores()) {
        out.put(b" (no answer here)");
        return Ok(());
    }
    let shown = shown_text(alloc, page, question)?;
    out.put(b" = ");
    out.put(&shown);
    Ok(())
}

// What a question answers, as it stands in a row.
fn answer_text<'a, C: Conditions>(
    alloc: Global,
    page: Page<'a, '_, C>,
    question: Question<'a>,
) -> Result<Vec<u8>, AllocError>
    requires node { IsNodeOf (bytes_of page.policy) (question_node question) }
    requires asked { question_view question
        ≡ asked (nodes_of (bytes_of page.policy)) (question_node question) }
    ensures { IfOk result (λ bytes. bytes.items
        ≡ answer_words (audited page.entry) (question_view question.entry)) }
{
    let mut buffer = Watched::new(Vec::new(alloc));
    put_answer(alloc, page, question, &mut buffer)?;
    text_in(buffer)
}

// Writes a question on which it depends then, with its answer. Where an allocation fails nothing is written.
fn put_known<'a, C: Conditions, W: Write>(
    alloc: Global,
    page: Page<'a, '_, C>,
    when: When,
    question: Question<'a>,
    out: &mut Watched<W>,
) -> Result<(), AllocError>
    requires node { IsNodeOf (bytes_of page.policy) (question_node question) }
    requires asked { question_view question
        ≡ asked (nodes_of (bytes_of page.policy)) (question_node question) }
    ensures told { OnOk result (Puts W.contents out.old out.new
        (known_dependence when (audited page.entry) (question_view question.entry))) }
    ensures nothing { OnErr result (out.new ≡ out.old) }
{
    let answer = answer_text(alloc, page, question)?;
    out.put(b"<p class=\"small\">");
    out.put(start_of(when));
    put_question_link(page, question, out);
    out.put(&answer);
    out.put(b"</p>");
    Ok(())
}

// Writes an id of which there is no question.
fn put_unknown<W: Write>(when: When, id: u16, out: &mut Watched<W>)
    ensures { Puts W.contents out.old out.new (unknown_dependence when id) }
{
    out.put(b"<p class=\"small\">");
    out.put(start_of(when));
    out.put_decimal(u64::from(id));
    out.put(b" (no such question)");
    out.put(b"</p>");
}

// Writes the question of an id with its answer. Where an allocation fails nothing is written.
fn put_dependence<'a, C: Conditions, W: Write>(
    alloc: Global,
    page: Page<'a, '_, C>,
    when: When,
    id: u16,
    out: &mut Watched<W>,
) -> Result<(), AllocError>
    ensures told { OnOk result (Puts W.contents out.old out.new
        (dependence_part when (audited page.entry) id)) }
    ensures nothing { OnErr result (out.new ≡ out.old) }
{
    match page.questions().find(id) {
        Some(question) => put_known(alloc, page, when, question, out),
        None => {
            put_unknown(when, id, out);
            Ok(())
        }
    }
}

/// Writes the questions on whose answers it depends then whether a statement may be changed, by rising ids. Where an allocation fails,
/// the beginning of these may be written.
pub(crate) fn put_depends<'a, C: Conditions, W: Write>(
    alloc: Global,
    page: Page<'a, '_, C>,
    statement: Statement<'a>,
    when: When,
    out: &mut Watched<W>,
) -> Result<(), AllocError>
    requires { IsNodeOf (bytes_of page.policy) (statement_node statement) }
    ensures told { OnOk result (Puts W.contents out.old out.new
        (depends_part when (audited page.entry) (statement_node statement.entry))) }
    ensures begun { OnErr result (Begins (pen_of W.contents out.old) (pen_of W.contents out.new)
        (depends_part when (audited page.entry) (statement_node statement.entry))) }
{
    let ids = support_of(alloc, page.policy(), statement, when)?;
    let mut left = ids.iter();
    while let Some(id) = left.next() {
        put_dependence(alloc, page, when, *id, out)?;
    }
    Ok(())
}

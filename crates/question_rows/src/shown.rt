//! The values of questions as rows show them.

ghost use Rattle.std.specs.Prelude.{◌≡◌, IfOk, OnOk, OnErr};
ghost use Rattle.hii_bytes.specs.Watching.{Puts};
ghost use Rattle.ifr_expr.specs.code.Views.{value_of};
ghost use Rattle.ifr_nodes.specs.Nodes.{nodes_of};
ghost use Rattle.ifr_nodes.specs.code.Checked.{IsNodeOf};
ghost use Rattle.hii_questions.specs.Fields.{asked};
ghost use Rattle.hii_questions.specs.code.Views.{question_node, question_view};
ghost use Rattle.guard_policy.specs.code.Views.{bytes_of};
ghost use Rattle.question_audit.specs.code.Pages.{audited};
ghost use Rattle.question_rows.specs.Shown.{on_or_off, shown_words, value_part};

use crate::buffers::{text_in, told_text};
use crate::elements::put_isolated_line;
use form_page::Page;
use guard_policy::Conditions;
use hii_bytes::Watched;
use hii_questions::{Question, read_value};
use ifr_expr::Value;
use ifr_opcodes::CHECKBOX;
use question_audit::shows_nothing;
use std::alloc::{AllocError, Global};
use std::io::Write;

/// A value of a CHECKBOX in a word.
pub(crate) fn on_or_off(value: Value<'_>) -> &'static [u8]
    ensures { result.now ≡ on_or_off (value_of value.entry) }
{
    match value {
        Value::Boolean(true) => b"on",
        _ => b"off",
    }
}

// Writes the value of a question. Where an allocation fails nothing is written.
fn put_shown_words<'a, C: Conditions, W: Write>(
    alloc: Global,
    page: Page<'a, '_, C>,
    question: Question<'a>,
    out: &mut Watched<W>,
) -> Result<(), AllocError>
    requires node { IsNodeOf (bytes_of page.policy) (question_node question) }
    requires asked { question_view question
        ≡ asked (nodes_of (bytes_of page.policy)) (question_node question) }
    ensures told { OnOk result (Puts W.contents out.old out.new
        (shown_words (audited page.entry) (question_view question.entry))) }
    ensures nothing { OnErr result (out.new ≡ out.old) }
{
    if question.op().op.code == CHECKBOX {
        out.put(on_or_off(read_value(question, page.stores())));
        return Ok(());
    }
    if shows_nothing(page, question) {
        out.put(b"<span class=\"dim\">empty</span>");
        return Ok(());
    }
    let told = told_text(alloc, page, question)?;
    put_isolated_line(&told, out);
    Ok(())
}

/// The value of a question as it stands in a row.
pub(crate) fn shown_text<'a, C: Conditions>(
    alloc: Global,
    page: Page<'a, '_, C>,
    question: Question<'a>,
) -> Result<Vec<u8>, AllocError>
    requires node { IsNodeOf (bytes_of page.policy) (question_node question) }
    requires asked { question_view question
        ≡ asked (nodes_of (bytes_of page.policy)) (question_node question) }
    ensures { IfOk result (λ bytes. bytes.items
        ≡ shown_words (audited page.entry) (question_view question.entry)) }
{
    let mut buffer = Watched::new(Vec::new(alloc));
    put_shown_words(alloc, page, question, &mut buffer)?;
    text_in(buffer)
}

/// Writes the value of a question that has a field. Where an allocation fails nothing is written.
pub(crate) fn put_value<'a, C: Conditions, W: Write>(
    alloc: Global,
    page: Page<'a, '_, C>,
    question: Question<'a>,
    out: &mut Watched<W>,
) -> Result<(), AllocError>
    requires node { IsNodeOf (bytes_of page.policy) (question_node question) }
    requires asked { question_view question
        ≡ asked (nodes_of (bytes_of page.policy)) (question_node question) }
    ensures told { OnOk result (Puts W.contents out.old out.new
        (value_part (audited page.entry) (question_view question.entry) (question_view question.entry).field)) }
    ensures nothing { OnErr result (out.new ≡ out.old) }
{
    let Some(_) = question.field() else {
        return Ok(());
    };
    let shown = shown_text(alloc, page, question)?;
    out.put(b"<p class=\"value\">");
    out.put(&shown);
    out.put(b"</p>");
    Ok(())
}

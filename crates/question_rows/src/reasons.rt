//! Why questions may not be changed, and what depends on them.

ghost use Rattle.std.specs.Prelude.{◌≡◌, IfSome, OnOk, OnErr};
ghost use Rattle.hii_bytes.specs.Watching.{Puts, pen_of};
ghost use Rattle.ifr_nodes.specs.Nodes.{nodes_of};
ghost use Rattle.ifr_nodes.specs.code.Checked.{IsNodeOf};
ghost use Rattle.hii_questions.specs.code.Views.{question_node, question_view};
ghost use Rattle.guard_policy.specs.code.Views.{bytes_of};
ghost use Rattle.question_audit.specs.code.Pages.{audited};
ghost use Rattle.question_audit.specs.code.Beginnings.{Begins};
ghost use Rattle.question_rows.specs.Conditions.{conditions_part, outside_part};
ghost use Rattle.question_rows.specs.Dependences.{dependences_part};
ghost use Rattle.question_rows.specs.Rows.{reason_cell};
ghost use Rattle.question_rows.specs.code.Deciding.{TellsDecisions};

use crate::checks::put_checks;
use crate::decided::put_decides;
use crate::decisions::Decisions;
use crate::depends::put_depends;
use crate::guards::put_guards;
use crate::rules::put_rules;
use form_page::Page;
use guard_policy::Conditions;
use hii_bytes::Watched;
use hii_questions::Question;
use question_audit::{When, is_never_changed, put_outside};
use std::alloc::{AllocError, Global};
use std::io::Write;

// Writes why a question can never be changed here, if it cannot.
fn put_outside_part<W: Write>(question: Question<'_>, out: &mut Watched<W>)
    ensures { Puts W.contents out.old out.new (outside_part (question_view question.entry)) }
{
    if is_never_changed(question) {
        out.put(b"<p class=\"small\">");
        put_outside(question, out);
        out.put(b"</p>");
    }
}

// Writes why a question can never be changed here, the conditions around it and in it, and the rules that they name. Where an allocation
// fails, the beginning of this may be written.
fn put_conditions<'a, C: Conditions, W: Write>(
    alloc: Global,
    page: Page<'a, '_, C>,
    question: Question<'a>,
    out: &mut Watched<W>,
) -> Result<(), AllocError>
    requires { IsNodeOf (bytes_of page.policy) (question_node question) }
    ensures told { OnOk result (Puts W.contents out.old out.new
        (conditions_part (audited page.entry) (question_view question.entry))) }
    ensures begun { OnErr result (Begins (pen_of W.contents out.old) (pen_of W.contents out.new)
        (conditions_part (audited page.entry) (question_view question.entry))) }
{
    put_outside_part(question, out);
    put_guards(alloc, page, question.statement(), out)?;
    put_checks(alloc, page, question, out)?;
    put_rules(alloc, page, question, out)?;
    Ok(())
}

// Writes on which questions a question depends, and which depend on it. Where an allocation fails, the beginning of this may be written.
fn put_dependences<'a, C: Conditions, W: Write>(
    alloc: Global,
    page: Page<'a, '_, C>,
    decisions: Option<&Decisions<'a>>,
    question: Question<'a>,
    out: &mut Watched<W>,
) -> Result<(), AllocError>
    requires node { IsNodeOf (bytes_of page.policy) (question_node question) }
    requires decisions { IfSome decisions (λ kept. TellsDecisions (nodes_of (bytes_of page.policy)) kept.now) }
    ensures told { OnOk result (Puts W.contents out.old out.new
        (dependences_part (audited page.entry) (question_node question.entry))) }
    ensures begun { OnErr result (Begins (pen_of W.contents out.old) (pen_of W.contents out.new)
        (dependences_part (audited page.entry) (question_node question.entry))) }
{
    let statement = question.statement();
    put_depends(alloc, page, statement, When::AtCommands, out)?;
    put_depends(alloc, page, statement, When::AtOpening, out)?;
    put_decides(alloc, page, decisions, question, out)?;
    Ok(())
}

/// Writes why a question may not be changed, and what depends on it. Where an allocation fails, the beginning of this may be written.
pub(crate) fn put_reason_cell<'a, C: Conditions, W: Write>(
    alloc: Global,
    page: Page<'a, '_, C>,
    decisions: Option<&Decisions<'a>>,
    question: Question<'a>,
    out: &mut Watched<W>,
) -> Result<(), AllocError>
    requires node { IsNodeOf (bytes_of page.policy) (question_node question) }
    requires decisions { IfSome decisions (λ kept. TellsDecisions (nodes_of (bytes_of page.policy)) kept.now) }
    ensures told { OnOk result (Puts W.contents out.old out.new
        (reason_cell (audited page.entry) (question_view question.entry))) }
    ensures begun { OnErr result (Begins (pen_of W.contents out.old) (pen_of W.contents out.new)
        (reason_cell (audited page.entry) (question_view question.entry))) }
{
    put_conditions(alloc, page, question, out)?;
    put_dependences(alloc, page, decisions, question, out)?;
    Ok(())
}

//! Whether questions may be changed.

ghost use Rattle.std.specs.Prelude.{◌≡◌, Option};
ghost use Rattle.hii_bytes.specs.Watching.{Puts};
ghost use Rattle.ifr_nodes.specs.Nodes.{nodes_of};
ghost use Rattle.ifr_nodes.specs.code.Checked.{IsNodeOf};
ghost use Rattle.hii_questions.specs.Fields.{asked};
ghost use Rattle.hii_questions.specs.code.Views.{question_node, question_view};
ghost use Rattle.guard_policy.specs.code.Answers.{unless};
ghost use Rattle.guard_policy.specs.code.Views.{bytes_of};
ghost use Rattle.guard_policy.specs.declared.denial.Denial.{Denial as Denied};
ghost use Rattle.question_audit.specs.code.Pages.{audited};
ghost use Rattle.question_rows.specs.States as spec;

use form_page::Page;
use guard_policy::{Conditions, Denial};
use hii_bytes::Watched;
use hii_questions::{DenialKind, Question};
use std::io::Write;

/// The class of elements that tell how a question stands: that it may be changed, or the kind of the denial.
pub fn standing_class(standing: Option<DenialKind>) -> &'static str
    ensures { result.now ≡ spec.standing_class standing }
{
    match standing {
        None => "open",
        Some(kind) => kind.name(),
    }
}

/// The word for this: open, grayed, hidden, disabled, locked, read only or outside.
pub fn standing_word(standing: Option<DenialKind>) -> &'static str
    ensures { result.now ≡ spec.standing_word standing }
{
    match standing {
        None => "open",
        Some(DenialKind::DisableIf) => "disabled",
        Some(DenialKind::SuppressIf) => "hidden",
        Some(DenialKind::GrayOutIf) => "grayed",
        Some(DenialKind::ReadOnly) => "read only",
        Some(kind) => kind.name(),
    }
}

// How a question of a verdict stands.
fn standing_of(verdict: Result<(), Denial>) -> Option<DenialKind>
    ensures { (denied : Option Denied) → verdict ≡ unless denied
        → result ≡ spec.standing_of denied }
{
    match verdict {
        Ok(()) => None,
        Err(denial) => Some(denial.kind),
    }
}

// Writes how a question stands as an element.
fn put_badge<W: Write>(standing: Option<DenialKind>, out: &mut Watched<W>)
    ensures { Puts W.contents out.old out.new (spec.badge standing) }
{
    out.put(b"<span class=\"badge ");
    out.put(standing_class(standing).as_bytes());
    out.put(b"\">");
    out.put(standing_word(standing).as_bytes());
    out.put(b"</span>");
}

/// Writes whether a question may be changed.
pub(crate) fn put_state_cell<'a, C: Conditions, W: Write>(
    page: Page<'a, '_, C>,
    question: Question<'a>,
    out: &mut Watched<W>,
)
    requires node { IsNodeOf (bytes_of page.policy) (question_node question) }
    requires asked { question_view question
        ≡ asked (nodes_of (bytes_of page.policy)) (question_node question) }
    ensures { Puts W.contents out.old out.new
        (spec.state_cell (audited page.entry) (question_node question.entry)) }
{
    let verdict = page
        .policy()
        .question_changeable_by(question, page.conditions());
    put_badge(standing_of(verdict), out);
}

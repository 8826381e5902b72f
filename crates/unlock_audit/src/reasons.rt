//! Reasons that no command takes away.

ghost use Rattle.std.specs.Prelude.{◌≡◌};
ghost use Rattle.std.specs.List.{find, list_any};
ghost use Rattle.ifr_nodes.specs.Guards.{guards};
ghost use Rattle.ifr_nodes.specs.Nodes.{nodes_of};
ghost use Rattle.ifr_nodes.specs.code.Checked.{IsNodeOf};
ghost use Rattle.ifr_scopes.specs.code.Lists.{guard_node};
ghost use Rattle.hii_questions.specs.Fields.{asked};
ghost use Rattle.hii_questions.specs.code.Views.{question_node, question_view};
ghost use Rattle.guard_policy.specs.Policy.{fixed};
ghost use Rattle.guard_policy.specs.code.Answers.{unless};
ghost use Rattle.form_page.specs.code.PageViews.{world_of};
ghost use Rattle.guard_policy.specs.code.Views.{bytes_of};
ghost use Rattle.question_audit.specs.QuestionLines.{is_constant_at, is_constant_guard};
ghost use Rattle.question_audit.specs.Reasons.{all_reasons};
ghost use Rattle.unlock_audit.specs.Unlock as spec;

use form_page::Page;
use guard_policy::{Conditions, Denial, Policy};
use hii_questions::{DenialKind, Question};
use ifr_scopes::{Forms, Guard};
use question_audit::Reasons;

// Whether the condition of a guard asks no question.
fn asks_none<'a>(forms: &Forms<'a>, guard: Guard<'a>) -> bool
    ensures { result ≡ is_constant_guard (nodes_of forms.now) (guard_node guard.entry) }
{
    forms
        .dependence(guard.condition(), guard.this())
        .next()
        .is_none()
}

// Whether a guard around a question at a place asks none.
fn is_constant<'a>(policy: Policy<'a, '_>, question: Question<'a>, place: u32) -> bool
    requires { IsNodeOf (bytes_of policy) (question_node question) }
    ensures { result ≡ list_any (is_constant_at (nodes_of (bytes_of policy.entry)) place) (guards (question_node question.entry)) }
{
    let forms = policy.forms();
    let mut guards = forms.guards_at(question.place());
    while let Some(guard) = guards.next() {
        if guard.place() == place && asks_none(forms, guard) {
            return true;
        }
    }
    false
}

/// Whether a question may be changed.
pub(crate) fn verdict_of<'a, C: Conditions>(
    page: Page<'a, '_, C>,
    question: Question<'a>,
) -> Result<(), Denial>
    requires node { IsNodeOf (bytes_of page.policy) (question_node question) }
    requires asked { question_view question
        ≡ asked (nodes_of (bytes_of page.policy)) (question_node question) }
    ensures { result ≡ unless (fixed (world_of page.entry) (question_node question.entry)) }
{
    page.policy()
        .question_changeable_by(question, page.conditions())
}

// Whether no command takes a reason away.
fn is_final<'a>(policy: Policy<'a, '_>, question: Question<'a>, reason: Denial) -> bool
    requires { IsNodeOf (bytes_of policy) (question_node question) }
    ensures { result ≡ spec.is_final (nodes_of (bytes_of policy.entry)) (question_node question.entry) reason }
{
    match reason.kind {
        DenialKind::Locked | DenialKind::ReadOnly | DenialKind::Outside => true,
        _ => is_constant(policy, question, reason.place),
    }
}

/// The first of the reasons why a question may not be changed that no command takes away.
pub(crate) fn final_reason<'a, C: Conditions>(
    page: Page<'a, '_, C>,
    question: Question<'a>,
) -> Option<Denial>
    requires { IsNodeOf (bytes_of page.policy) (question_node question) }
    ensures { result ≡ find (spec.is_final (nodes_of (bytes_of page.entry.policy)) (question_node question.entry))
        (all_reasons (world_of page.entry) (question_view question.entry)) }
{
    let mut reasons = Reasons::of(page, question);
    while let Some(reason) = reasons.next() {
        if is_final(page.policy(), question, reason) {
            return Some(reason);
        }
    }
    None
}

/// Whether a DISABLE_IF that was removed is among the reasons why a question may not be changed.
pub(crate) fn needs_new_run<'a, C: Conditions>(
    page: Page<'a, '_, C>,
    question: Question<'a>,
) -> bool
    requires { IsNodeOf (bytes_of page.policy) (question_node question) }
    ensures { result ≡ list_any spec.is_removal
        (all_reasons (world_of page.entry) (question_view question.entry)) }
{
    let mut reasons = Reasons::of(page, question);
    while let Some(reason) = reasons.next() {
        if let DenialKind::DisableIf = reason.kind {
            return true;
        }
    }
    false
}

//! The reasons of one kind why a question may not be changed.

ghost use Rattle.std.specs.Prelude.{◌≡◌, map};
ghost use Rattle.std.specs.Iterator.{YieldsFirst};
ghost use Rattle.ifr_nodes.specs.Locks.{locks};
ghost use Rattle.ifr_nodes.specs.Nodes.{nodes_of};
ghost use Rattle.ifr_nodes.specs.code.Checked.{IsNodeOf};
ghost use Rattle.hii_values.specs.declared.denial.DenialKind.TheVariants.{Locked};
ghost use Rattle.hii_questions.specs.code.Views.{question_node, question_view};
ghost use Rattle.guard_policy.specs.Policy as policy;
ghost use Rattle.guard_policy.specs.code.Views.{bytes_of};
ghost use Rattle.form_page.specs.code.PageViews.{world_of};
ghost use Rattle.question_audit.specs.Reasons.{own_reasons};
ghost use Rattle.question_audit.specs.code.ReasonParts.{graying_out_left, hiding_left, locked_left, own_left};

use crate::guard_verdicts::{grays_out, hides, hiding};
use crate::limits_facts::is_never_changed;
use form_page::Page;
use guard_policy::{Conditions, Denial};
use hii_questions::{DenialKind, Question};
use ifr_scopes::{GuardsAt, Locks, Statement};

/// The denial of the next guard that hides.
pub(crate) fn next_hiding<'a, C: Conditions>(
    page: Page<'a, '_, C>,
    guards: &mut GuardsAt<'_, 'a>,
) -> Option<Denial>
    requires { guards.old.ifr.now ≡ bytes_of page.policy }
    ensures steps { YieldsFirst (hiding_left (world_of page.entry)) guards.old result guards.new }
    ensures same { guards.new.ifr.now ≡ guards.old.ifr.now }
{
    while let Some(guard) = guards.step() {
        if hides(page, guard) {
            return Some(hiding(guard));
        }
    }
    None
}

/// The denial of the next GRAY_OUT_IF that holds.
pub(crate) fn next_graying_out<'a, C: Conditions>(
    page: Page<'a, '_, C>,
    guards: &mut GuardsAt<'_, 'a>,
) -> Option<Denial>
    requires { guards.old.ifr.now ≡ bytes_of page.policy }
    ensures steps { YieldsFirst (graying_out_left (world_of page.entry)) guards.old result guards.new }
    ensures same { guards.new.ifr.now ≡ guards.old.ifr.now }
{
    while let Some(guard) = guards.step() {
        if grays_out(page, guard) {
            return Some(Denial::by(DenialKind::GrayOutIf, guard.place()));
        }
    }
    None
}

/// The denial of the next LOCKED.
pub(crate) fn next_locked(locks: &mut Option<Locks<'_>>) -> Option<Denial>
    ensures { YieldsFirst locked_left locks.old result locks.new }
{
    match locks {
        Some(locks) => Some(Denial::by(DenialKind::Locked, locks.next()?.place())),
        None => None,
    }
}

/// The LOCKEDs that lock a question: where none decides, the package is not gone through.
pub(crate) fn locks_of<'a, C: Conditions>(
    page: Page<'a, '_, C>,
    question: Question<'a>,
) -> Option<Locks<'a>>
    requires { IsNodeOf (bytes_of page.policy) (question_node question) }
    ensures { locked_left result ≡ map (policy.denied_by Locked)
        (locks (nodes_of (bytes_of page.entry.policy)) (question_node question.entry)) }
{
    let forms = page.policy().forms();
    if forms.around(question.place()).lock().is_none() {
        return None;
    }
    Some(Statement::at(forms.bytes(), question.place(), 0).locks())
}

/// The reasons of a question by itself that are left.
#[derive(Clone, Copy)]
pub(crate) struct OwnReasons {
    read_only: Option<Denial>,
    outside: Option<Denial>,
}

impl OwnReasons {
    /// That it is read-only, and that it is outside.
    pub(crate) fn of(question: Question<'_>) -> OwnReasons
        ensures { own_left result ≡ own_reasons (question_view question.entry) }
    {
        let read_only = question.op().is_read_only();
        let outside = is_never_changed(question);
        OwnReasons {
            read_only: read_only.then_some(Denial::by(DenialKind::ReadOnly, question.place())),
            outside: outside.then_some(Denial::by(DenialKind::Outside, question.place())),
        }
    }

    /// Goes to the next.
    pub(crate) fn step(&mut self) -> Option<Denial>
        ensures { YieldsFirst own_left self.old result self.new }
    {
        if let Some(denial) = self.read_only.take() {
            return Some(denial);
        }
        self.outside.take()
    }
}

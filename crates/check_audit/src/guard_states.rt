//! What the condition of a guard comes to where no question answers.

ghost use Rattle.std.specs.Prelude.{◌≡◌, IfOk};
ghost use Rattle.ifr_nodes.specs.Nodes.{nodes_of};
ghost use Rattle.ifr_scopes.specs.code.Lists.{guard_node};
ghost use Rattle.check_audit.specs.Constants.{holds_always, is_constant, unasked};
ghost use Rattle.check_audit.specs.code.States.{state_at, states_of};

use ifr_expr::{Answers, Value};
use ifr_scopes::{Forms, Guard};
use std::alloc::{AllocError, Global};

/// What the condition of a guard comes to where no question answers.
#[derive(Clone, Copy)]
pub(crate) enum GuardState {
    /// It names a question, or a rule that it names does.
    Asks,
    /// It names none, and holds.
    Holds,
    /// It names none, and does not hold.
    Fails,
}

// One is held for each guard of a form set.
const _: () = prove!(size_of::<GuardState>() == 1);

// What no question answers.
struct Unasked {}

impl<'v> Answers<'v> for Unasked {
    ghost answers = { λ _ id. unasked id };

    fn answer(&self, _question: u16) -> Value<'v> {
        Value::Undefined
    }

    fn number(&self, _question: u16) -> Option<u64> {
        None
    }
}

// Whether the condition of a guard names no question, in the rules that it names neither.
fn is_constant<'a>(forms: &Forms<'a>, guard: Guard<'a>) -> bool
    ensures { result ≡ is_constant (nodes_of forms.now) (guard_node guard.entry) }
{
    forms
        .dependence(guard.condition(), guard.this())
        .next()
        .is_none()
}

// Whether the condition of a guard holds where no question answers.
fn holds_always<'a>(forms: &Forms<'a>, guard: Guard<'a>) -> bool
    ensures { result ≡ holds_always (nodes_of forms.now) (guard_node guard.entry) }
{
    guard.condition().holds(&Unasked {}, forms, guard.this())
}

// What the condition of a guard comes to.
fn state_of<'a>(forms: &Forms<'a>, guard: Guard<'a>) -> GuardState
    ensures { result ≡ state_at (nodes_of forms.now) (guard_node guard.entry) }
{
    if !is_constant(forms, guard) {
        return GuardState::Asks;
    }
    if holds_always(forms, guard) {
        GuardState::Holds
    } else {
        GuardState::Fails
    }
}

/// What the conditions of the guards of a form set come to, by place.
pub(crate) fn guard_states<'a>(
    alloc: Global,
    forms: &Forms<'a>,
) -> Result<Vec<GuardState>, AllocError>
    ensures { IfOk result (λ found. found.items ≡ states_of (nodes_of forms.now)) }
{
    let mut found = Vec::with_capacity(alloc, forms.guard_count())?;
    let mut guards = forms.guards();
    while let Some(guard) = guards.next() {
        found.push(state_of(forms, guard))?;
    }
    Ok(found)
}

//! The form set, its forms, guards, locks and rules.

use ifr_expr::{Answers, Value};
use ifr_opcodes::{LOCKED, SUPPRESS_IF};
use ifr_scopes::{AnyCondition, Forms, Guard, Statement};
use std::process::Abort;

pub(crate) fn form_set_and_form_are_told(rt: &impl Abort, forms: &Forms<'_>) {
    let form_set = forms.formset();
    assert!(rt; form_set.place() == 4 && form_set.op().title() == 0x4321);
    let form = forms.forms().next().expect(rt, "a form");
    assert!(rt; form.place() == 146 && form.op().id() == 7);
    assert!(rt; form.guards().next().map(Guard::place) == Some(98));
    assert!(rt; form.statements().next().map(Statement::place) == Some(156));
}

pub(crate) fn guards_and_locks_are_told(rt: &impl Abort, forms: &Forms<'_>) {
    assert!(rt; forms.guard_count() == 6);
    // of the form, in no question
    let guard = forms.guards_at(146).next().expect(rt, "a guard");
    assert!(rt; guard.place() == 98 && guard.this() == 0 && guard.number() == Some(0));
    assert!(rt; guard.code() == SUPPRESS_IF && guard.op().code == SUPPRESS_IF);
    // of an option and a default
    let lock = forms.around(216).lock().expect(rt, "a lock");
    assert!(rt; lock.place() == 265 && lock.op().code == LOCKED);
    assert!(rt; forms.around(236).lock().is_none());
}

// Questions without answers.
pub(crate) struct Nobody;

impl<'v> Answers<'v> for Nobody {
    ghost use Rattle.ifr_expr.specs.Values as spec;

    ghost answers = { λ _ _. spec.undefined };

    fn answer(&self, _question: u16) -> Value<'v> {
        Value::Undefined
    }

    fn number(&self, _question: u16) -> Option<u64> {
        None
    }
}

// The question of the condition at a place, whether it is that of a guard, whether it has a value, and whether it holds.
fn condition_at(rt: &impl Abort, forms: &Forms<'_>, place: u32) -> (u16, [bool; 3]) {
    let found = forms.condition_at(place, 0).expect(rt, "a condition");
    assert!(rt; found.place() == place);
    let is_guard = matches!(found, AnyCondition::Guard(_));
    let condition = found.condition();
    let is_undefined = matches!(condition.value(&Nobody, forms, 0), Value::Undefined);
    let holds = condition.holds(&Nobody, forms, 0);
    (found.this(), [is_guard, !is_undefined, holds])
}

fn conditions_are_found(rt: &impl Abort, forms: &Forms<'_>) {
    // The rule 5 stands behind the one guard and before the other.
    assert!(rt; condition_at(rt, forms, 267) == (0, [true, false, false]));
    assert!(rt; condition_at(rt, forms, 281) == (0, [true; 3]));
    // NO_SUBMIT_IF
    assert!(rt; condition_at(rt, forms, 170) == (1, [false, true, true]));
}

pub(crate) fn rules_are_told(rt: &impl Abort, forms: &Forms<'_>) {
    conditions_are_found(rt, forms);
    assert!(rt; forms.rules().next().expect(rt, "a rule").place() == 274);
    let rule = forms.rule_named(6, 301).expect(rt, "the rule 6");
    assert!(rt; rule.place() == 288 && rule.expression().support().next() == Some(7));
    let condition = forms
        .condition_at(299, 0)
        .expect(rt, "a condition")
        .condition();
    assert!(rt; forms.dependence(condition, 9).eq([7, 9]));
}

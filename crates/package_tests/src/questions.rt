//! Statements with their questions, conditions, options and defaults.

use crate::scopes::Nobody;
use ifr_expr::Value;
use ifr_scopes::{
    ConditionOp, ConditionView, Forms, Guard, LockView, OptionView, Statement, StatementKind,
};
use std::process::Abort;

fn statement_is_told(rt: &impl Abort, statement: Statement<'_>) {
    // the form stands before it in the index
    assert!(rt; statement.place() == 156 && statement.position() == 1);
    assert!(rt; matches!(statement.kind(), StatementKind::Checkbox(_)));
    assert!(rt; statement.op().prompt() == 3);
    assert!(rt; statement.question().expect(rt, "a question").id() == 1);
    assert!(rt; statement.guards().next().map(Guard::place) == Some(98));
    assert!(rt; statement.locks().next().map(LockView::place) == Some(265));
}

// The place of a condition, its question and its text, and how many operators it has.
fn condition_fields(condition: ConditionView<'_>) -> (u32, [u16; 2], usize) {
    let text = match condition.op() {
        ConditionOp::InconsistentIf(op) => op.error(),
        ConditionOp::NoSubmitIf(op) => op.error(),
        ConditionOp::WarningIf(op) => op.text(),
    };
    let ids = [condition.this(), text];
    (condition.place(), ids, condition.condition().len())
}

fn submission_is_denied(rt: &impl Abort, forms: &Forms<'_>) {
    let mut first = forms.nosubmits().next().expect(rt, "NO_SUBMIT_IF");
    assert!(rt; condition_fields(first.condition) == (170, [1, 9], 1));
    // the innermost guard
    assert!(rt; first.guards.next().map(Guard::place) == Some(152));
}

fn conditions_are_told(rt: &impl Abort, statement: Statement<'_>) {
    let no_submit = statement.nosubmits().next().expect(rt, "NO_SUBMIT_IF");
    assert!(rt; condition_fields(no_submit) == (170, [1, 9], 1));
    let inconsistent = statement
        .inconsistents()
        .next()
        .expect(rt, "INCONSISTENT_IF");
    assert!(rt; condition_fields(inconsistent) == (178, [1, 10], 1));
    let warning = statement.warnings().next().expect(rt, "WARNING_IF");
    assert!(rt; condition_fields(warning) == (186, [1, 11], 1));
}

// The place and the value of an option, and the places of its last guard and its first lock.
fn option_fields(option: OptionView<'_>) -> (u32, u64, [Option<u32>; 2]) {
    let guard = option.guards().last().map(Guard::place);
    let lock = option.locks().next().map(LockView::place);
    (option.place(), option.op().value(), [guard, lock])
}

fn options_are_told(rt: &impl Abort, statement: Statement<'_>) {
    let mut options = statement.options();
    let first = options.next().expect(rt, "an option");
    assert!(rt; option_fields(first) == (216, 4, [Some(98), Some(265)]));
    let second = options.next().expect(rt, "a second option");
    assert!(rt; option_fields(second) == (227, 5, [Some(223), Some(265)]));
}

fn defaults_are_told<'a>(rt: &impl Abort, forms: &Forms<'a>, statement: Statement<'a>) {
    let mut defaults = statement.defaults();
    let number = defaults.next().expect(rt, "a default");
    assert!(rt; number.place() == 236 && number.op().id() == 0 && number.value().is_none());
    let sum = defaults.next().expect(rt, "a second default");
    assert!(rt; sum.place() == 242 && sum.op().id() == 1);
    let expression = sum.value().expect(rt, "an expression");
    assert!(rt; matches!(expression.value(&Nobody, forms, 0), Value::Number(5)));
}

pub(crate) fn questions_are_told(rt: &impl Abort, forms: &Forms<'_>) {
    submission_is_denied(rt, forms);
    let mut statements = forms.statements();
    let first = statements.next().expect(rt, "a statement");
    statement_is_told(rt, first);
    conditions_are_told(rt, first);
    let second = statements.next().expect(rt, "a second statement");
    options_are_told(rt, second);
    defaults_are_told(rt, forms, second);
}

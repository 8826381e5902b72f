//! The guards around questions and their checks.

ghost use Rattle.std.specs.Prelude.{◌≡◌, ◌+◌, ◌<◌, ◌^◌, IfOk, OnOk, OnErr, length};
ghost use Rattle.hii_bytes.specs.Watching.{Puts};
ghost use Rattle.ifr_opcodes.specs.Opcode.{number};
ghost use Rattle.ifr_opcodes.specs.code.Ops.{bytes_of as op_bytes};
ghost use Rattle.ifr_expr.specs.code.RuleValues.{KeepsNothing, kept_under};
ghost use Rattle.ifr_expr.specs.code.Views.{value_of};
ghost use Rattle.ifr_scopes.specs.code.AnyConditions.{any_condition_node};
ghost use Rattle.ifr_nodes.specs.code.Checked.{IsNodeOf};
ghost use Rattle.ifr_scopes.specs.code.Lists.{guard_node, statement_node};
ghost use Rattle.ifr_scopes.specs.code.Parts.{condition_node, condition_op};
ghost use Rattle.hii_questions.specs.code.Views.{question_node};
ghost use Rattle.guard_policy.specs.code.RuleValues.{AreRuleValues};
ghost use Rattle.guard_policy.specs.code.Views.{bytes_of};
ghost use Rattle.question_audit.specs.code.Pages.{audited};
ghost use Rattle.question_audit.specs.ConditionFacts.{check_fact, check_facts, condition_fact, guard_fact, guard_facts, guard_state, state_text, value_at};

use crate::facts::put_column;
use audit_text::{opcode_name, put_hexadecimal};
use condition_text::ConditionText;
use form_page::Page;
use guard_policy::Conditions;
use hii_bytes::Watched;
use hii_questions::Question;
use ifr_expr::{RuleValues, Value};
use ifr_opcodes::DISABLE_IF;
use ifr_scopes::{AnyCondition, ConditionOp, ConditionView, Forms, Guard, Statement};
use std::alloc::{AllocError, Global};
use std::io::Write;

/// Of how many rules something is kept while conditions are told: so few that it takes little memory beside what a session
/// does.
pub(crate) const KEPT_RULES: usize = 4096;

/// Room for the values of the first rules of a package, of which none is known.
pub fn rule_values(alloc: Global, forms: &Forms<'_>) -> Result<RuleValues, AllocError>
    ensures { IfOk result (λ values. KeepsNothing (kept_under values)) }
{
    RuleValues::new(alloc, forms.rule_count().min(KEPT_RULES))
}

// The word for what a condition is.
fn state_word(value: Value<'_>) -> &'static [u8]
    ensures { result.now ≡ state_text (value_of value.entry) }
{
    match value {
        Value::Undefined => b"undefined",
        Value::Boolean(true) => b"holds",
        Value::Boolean(false) => b"does not hold",
        Value::Number(0) => b"does not hold",
        Value::Number(_) => b"holds",
        Value::Text(_) => b"does not hold",
        Value::Buffer(_) => b"does not hold",
    }
}

/// What a condition is over the stores of a page, in a word.
pub fn state_of<'a, C: Conditions>(
    page: Page<'a, '_, C>,
    condition: AnyCondition<'a>,
) -> &'static [u8]
    ensures { result.now
        ≡ state_text (value_at (audited page.entry) (any_condition_node condition.entry)) }
{
    let answers = page.questions().over(page.stores());
    state_word(
        condition
            .condition()
            .value(&answers, page.policy().forms(), condition.this()),
    )
}

/// The same, by values of rules over these stores. Those that it asks for are kept there.
pub fn state_by<'a, C: Conditions>(
    page: Page<'a, '_, C>,
    condition: AnyCondition<'a>,
    rules: &mut RuleValues,
) -> &'static [u8]
    requires kept { AreRuleValues (bytes_of page.policy) page.stores.now rules.old }
    ensures state { result.now
        ≡ state_text (value_at (audited page.entry) (any_condition_node condition.entry)) }
    ensures kept { AreRuleValues (bytes_of page.entry.policy) page.entry.stores.now rules.new }
{
    let answers = page.questions().over(page.stores());
    state_word(
        condition
            .condition()
            .value_by(&answers, page.policy().forms(), condition.this(), rules),
    )
}

/// How a condition is told, beside what it says.
#[derive(Clone, Copy)]
struct Heading<'t> {
    word: &'t [u8],
    /// The number of its opcode.
    code: u8,
    /// Where its forms package stands in the list, in bytes.
    package_place: u64,
    state: &'t [u8],
}

// Writes a condition: its word, its opcode, its place and its byte in the list, its state and what it says.
fn put_condition<W: Write>(heading: Heading<'_>, condition: AnyCondition<'_>, out: &mut Watched<W>)
    requires code { heading.code ≡ number (any_condition_node condition).op }
    requires in_list { heading.package_place + (any_condition_node condition).place < 2 ^ 64 }
    ensures { Puts W.contents out.old out.new
        (condition_fact heading.entry.word.now heading.entry.package_place
        (any_condition_node condition.entry) heading.entry.state.now) }
{
    let text = ConditionText::of(condition.condition());
    let place = u64::from(condition.place());
    put_column(heading.word, out);
    out.put(opcode_name(heading.code));
    out.put(b" at ");
    out.put_place(place);
    out.put(b" (byte ");
    put_hexadecimal(out, heading.package_place + place);
    out.put(b") ");
    out.put(heading.state);
    out.put(b": ");
    text.put(out);
    out.put(b"\n");
}

/// How a guard stands: whether a DISABLE_IF was removed, and whether the condition of another guard holds.
pub fn guard_state<'a, C: Conditions>(page: Page<'a, '_, C>, guard: Guard<'a>) -> &'static [u8]
    ensures { result.now ≡ guard_state (audited page.entry) (guard_node guard.entry) }
{
    if guard.code() != DISABLE_IF {
        return state_of(page, AnyCondition::Guard(guard));
    }
    if page.policy().removed(guard.place()) {
        b"removed"
    } else {
        b"kept"
    }
}

/// The same, by values of rules over the stores of the page. Those that it asks for are kept there.
pub fn guard_state_by<'a, C: Conditions>(
    page: Page<'a, '_, C>,
    guard: Guard<'a>,
    rules: &mut RuleValues,
) -> &'static [u8]
    requires kept { AreRuleValues (bytes_of page.policy) page.stores.now rules.old }
    ensures state { result.now ≡ guard_state (audited page.entry) (guard_node guard.entry) }
    ensures kept { AreRuleValues (bytes_of page.entry.policy) page.entry.stores.now rules.new }
{
    if guard.code() == DISABLE_IF {
        return guard_state(page, guard);
    }
    state_by(page, AnyCondition::Guard(guard), rules)
}

// Writes a guard, by values of rules over the stores of the page.
fn put_guard<'a, C: Conditions, W: Write>(
    page: Page<'a, '_, C>,
    package_place: u64,
    guard: Guard<'a>,
    rules: &mut RuleValues,
    out: &mut Watched<W>,
)
    requires in_list { package_place + (guard_node guard).place < 2 ^ 64 }
    requires kept { AreRuleValues (bytes_of page.policy) page.stores.now rules.old }
    ensures kept { AreRuleValues (bytes_of page.entry.policy) page.entry.stores.now rules.new }
    ensures told { Puts W.contents out.old out.new
        (guard_fact (audited page.entry) package_place (guard_node guard.entry)) }
{
    let heading = Heading {
        word: b"guard",
        code: guard.code(),
        package_place,
        state: guard_state_by(page, guard, rules),
    };
    put_condition(heading, AnyCondition::Guard(guard), out);
}

/// Writes the guards around a statement, the outermost first. Where an allocation fails nothing is written.
pub(crate) fn put_guards<'a, C: Conditions, W: Write>(
    alloc: Global,
    page: Page<'a, '_, C>,
    package_place: u64,
    statement: Statement<'a>,
    out: &mut Watched<W>,
) -> Result<(), AllocError>
    requires node { IsNodeOf (bytes_of page.policy) (statement_node statement) }
    requires in_list { package_place + length (bytes_of page.policy) < 2 ^ 64 }
    ensures told { OnOk result (Puts W.contents out.old out.new
        (guard_facts (audited page.entry) package_place (statement_node statement.entry))) }
    ensures nothing { OnErr result (out.new ≡ out.old) }
{
    let forms = page.policy().forms();
    let mut rules = rule_values(alloc, forms)?;
    let mut guards = forms.guards_at(statement.place());
    while let Some(guard) = guards.step() {
        put_guard(page, package_place, guard, &mut rules, out);
    }
    Ok(())
}

/// The number of the opcode of a check.
pub fn code_of(op: ConditionOp<'_>) -> u8
    ensures { result ≡ number (op_bytes (condition_op op.entry)) }
{
    match op {
        ConditionOp::InconsistentIf(view) => view.op.code,
        ConditionOp::NoSubmitIf(view) => view.op.code,
        ConditionOp::WarningIf(view) => view.op.code,
    }
}

// Writes a check, by values of rules over the stores of the page.
fn put_check<'a, C: Conditions, W: Write>(
    page: Page<'a, '_, C>,
    package_place: u64,
    check: ConditionView<'a>,
    rules: &mut RuleValues,
    out: &mut Watched<W>,
)
    requires in_list { package_place + (condition_node check).place < 2 ^ 64 }
    requires kept { AreRuleValues (bytes_of page.policy) page.stores.now rules.old }
    ensures kept { AreRuleValues (bytes_of page.entry.policy) page.entry.stores.now rules.new }
    ensures told { Puts W.contents out.old out.new
        (check_fact (audited page.entry) package_place (condition_node check.entry)) }
{
    let condition = AnyCondition::Question(check);
    let heading = Heading {
        word: b"check",
        code: code_of(check.op()),
        package_place,
        state: state_by(page, condition, rules),
    };
    put_condition(heading, condition, out);
}

/// Writes the checks in the scope of a question, by place. Where an allocation fails nothing is written.
pub(crate) fn put_checks<'a, C: Conditions, W: Write>(
    alloc: Global,
    page: Page<'a, '_, C>,
    package_place: u64,
    question: Question<'a>,
    out: &mut Watched<W>,
) -> Result<(), AllocError>
    requires node { IsNodeOf (bytes_of page.policy) (question_node question) }
    requires in_list { package_place + length (bytes_of page.policy) < 2 ^ 64 }
    ensures told { OnOk result (Puts W.contents out.old out.new
        (check_facts (audited page.entry) package_place (question_node question.entry))) }
    ensures nothing { OnErr result (out.new ≡ out.old) }
{
    let forms = page.policy().forms();
    let mut rules = rule_values(alloc, forms)?;
    let mut checks = forms.conditions_in(question.statement());
    while let Some(check) = checks.next() {
        put_check(page, package_place, check, &mut rules, out);
    }
    Ok(())
}

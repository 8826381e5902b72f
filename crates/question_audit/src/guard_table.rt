//! What is asked of the guards of a form set, once for each.

ghost use Rattle.std.specs.Prelude.{◌≡◌, Bool, true, IfOk, is_some, length, map};
ghost use Rattle.ifr_opcodes.specs.Forest.{Node};
ghost use Rattle.ifr_expr.specs.code.Views.{value_of};
ghost use Rattle.ifr_nodes.specs.Guards.{guards_among};
ghost use Rattle.ifr_nodes.specs.Nodes.{nodes_of};
ghost use Rattle.ifr_scopes.specs.code.Lists.{guard_node, guard_package};
ghost use Rattle.guard_policy.specs.code.RuleValues.{AreRuleValues};
ghost use Rattle.guard_policy.specs.code.Views.{bytes_of};
ghost use Rattle.question_audit.specs.QuestionLines.{is_constant_guard, is_undefined, is_undefined_guard};
ghost use Rattle.question_audit.specs.code.GuardTables.{TellsGuards};
ghost use Rattle.question_audit.specs.code.Pages.{audited};

use form_page::Page;
use guard_policy::Conditions;
use ifr_expr::{RuleValues, Value};
use ifr_scopes::{Forms, Guard};
use std::alloc::{AllocError, Global};

/// What is known of each guard of a form set, by its number among them.
#[derive(Drop)]
pub struct GuardTable {
    /// Whether its condition is undefined.
    pub undefined: Vec<bool>,
    /// Whether its condition names no question.
    pub constant: Vec<bool>,
}

fn is_undefined(value: Value<'_>) -> bool
    ensures { result ≡ is_undefined (value_of value.entry) }
{
    match value {
        Value::Undefined => true,
        _ => false,
    }
}

// Whether the condition of a guard is undefined over the stores of the page, by values of rules over them. Those that it asks for are
// kept there.
fn is_undefined_guard<'a, C: Conditions>(
    page: Page<'a, '_, C>,
    guard: Guard<'a>,
    rules: &mut RuleValues,
) -> bool
    requires kept { AreRuleValues (bytes_of page.policy) page.stores.now rules.old }
    ensures told { result ≡ is_undefined_guard (audited page.entry) (guard_node guard.entry) }
    ensures kept { AreRuleValues (bytes_of page.entry.policy) page.entry.stores.now rules.new }
{
    let forms = page.policy().forms();
    let answers = page.questions().over(page.stores());
    is_undefined(
        guard
            .condition()
            .value_by(&answers, forms, guard.this(), rules),
    )
}

// Whether the condition of a guard names no question, in the rules that it names neither.
fn is_constant_guard<'a>(forms: &Forms<'a>, guard: Guard<'a>) -> bool
    ensures { result ≡ is_constant_guard (nodes_of forms.now) (guard_node guard.entry) }
{
    forms
        .dependence(guard.condition(), guard.this())
        .next()
        .is_none()
}

/// The flag of a guard, where these are the flags of all guards of its package, by place.
pub fn flag_of(flags: &[bool], guard: Guard<'_>) -> bool
    requires numbered { is_some guard.number ≡ true }
    requires all { length flags.now ≡ length (guards_among (nodes_of (guard_package guard))) }
    ensures { (flag : Node → Bool)
        → flags.now ≡ map flag (guards_among (nodes_of (guard_package guard.entry)))
        → result ≡ flag (guard_node guard.entry) }
{
    flags[guard.number().unwrap() as usize]
}

impl GuardTable {
    /// Asks each guard of a page's form set over the stores of the page. The one error is that an allocation failed.
    pub fn read<'a, C: Conditions>(
        alloc: Global,
        page: Page<'a, '_, C>,
    ) -> Result<GuardTable, AllocError>
        ensures { IfOk result (TellsGuards (audited page.entry)) }
    {
        let forms = page.policy().forms();
        let mut undefined = Vec::with_capacity(alloc, forms.guard_count())?;
        let mut constant = Vec::with_capacity(alloc, forms.guard_count())?;
        let mut rules = RuleValues::new(alloc, forms.rule_count())?;
        let mut guards = forms.guards();
        while let Some(guard) = guards.next() {
            undefined.push(is_undefined_guard(page, guard, &mut rules))?;
            constant.push(is_constant_guard(forms, guard))?;
        }
        Ok(GuardTable {
            undefined,
            constant,
        })
    }
}

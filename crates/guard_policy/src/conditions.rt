//! Whether conditions hold.

ghost use Rattle.std.specs.Prelude.{◌≡◌};
ghost use Rattle.ifr_scopes.specs.code.AnyConditions.{any_condition_node};
ghost use Rattle.ifr_scopes.specs.code.Lists.{guard_node};
ghost use Rattle.ifr_scopes.specs.code.Parts.{condition_node};
ghost use Rattle.ifr_expr.specs.Meaning.{value};
ghost use Rattle.ifr_expr.specs.Values.{holds};
ghost use Rattle.ifr_expr.specs.code.Expressions.{tree_of};
ghost use Rattle.ifr_nodes.specs.Nodes.{nodes_of};
ghost use Rattle.ifr_nodes.specs.code.Rules.{rules_of};
ghost use Rattle.hii_questions.specs.Answers.{answers};
ghost use Rattle.guard_policy.specs.World.{is_met_over};
ghost use Rattle.guard_policy.specs.code.RuleValues.{AreRuleValues};
ghost use Rattle.guard_policy.specs.code.Views.{bytes_of, world};
ghost use Rattle.guard_policy.specs.code.Worlds.{is_met_at};

use crate::policy::Policy;
use hii_questions::Questions;
use hii_varstore::Stores;
use ifr_expr::{Expr, RuleValues};
use ifr_scopes::{AnyCondition, ConditionView, Forms, Guard};

/// What is kept of conditions, by their places.
pub trait Conditions {
    ghost use Rattle.std.specs.Prelude.{◌≡◌, ℕ, Bool};

    /// Whether the condition at each place holds.
    ghost holding: { Self → ℕ → Bool };

    /// Whether the condition of the opcode at a place, in bytes from the header of the forms package, holds. A policy asks it for
    /// SUPPRESS_IF, GRAY_OUT_IF and NO_SUBMIT_IF alone (UEFI 2.8, 33.3.8.3).
    fn holds(&self, place: u32) -> bool
        ensures { result ≡ holding self.now place };

    /// The same of the condition of a guard at a place. The number is how many guards of the package stand before it: it may
    /// spare a search, and is not what decides.
    fn guard_holds(&self, _number: u32, place: u32) -> bool
        ensures { result ≡ holding self.now place }
    {
        self.holds(place)
    }

    /// The same of a condition of a question at a place. The number is how many conditions of questions of the package stand
    /// before it: it may spare a search, and is not what decides.
    fn condition_holds(&self, _number: u32, place: u32) -> bool
        ensures { result ≡ holding self.now place }
    {
        self.holds(place)
    }
}

/// Where a decision learns whether a condition holds.
pub(crate) trait Verdicts<'a> {
    ghost use Rattle.std.specs.Prelude.{◌≡◌, Bool};
    ghost use Rattle.ifr_opcodes.specs.Forest.{Node};
    ghost use Rattle.ifr_scopes.specs.code.AnyConditions.{any_condition_node};

    ghost met: { Self → Node → Bool };

    /// Whether a condition holds.
    fn is_met(&self, condition: AnyCondition<'a>) -> bool
        ensures { result ≡ met self.now (any_condition_node condition.entry) };
}

/// The conditions of a form set over some stores: each is evaluated whenever it is asked.
#[derive(Drop)]
pub struct Evaluated<'p, 'a, 's> {
    pub(crate) policy: Policy<'a, 's>,
    pub(crate) stores: &'p Stores,
}

impl<'p, 'a, 's> Verdicts<'a> for Evaluated<'p, 'a, 's> {
    ghost use Rattle.guard_policy.specs.code.Views.{world};
    ghost use Rattle.guard_policy.specs.World.{is_met};

    ghost met = { λ it n. is_met (world it.policy it.stores.now) n };

    fn is_met(&self, condition: AnyCondition<'a>) -> bool {
        let policy = self.policy;
        condition_holds(condition, policy.forms, policy.questions, self.stores)
    }
}

impl<'p, 'a, 's> Conditions for Evaluated<'p, 'a, 's> {
    ghost use Rattle.guard_policy.specs.code.Views.{world};
    ghost use Rattle.guard_policy.specs.code.Worlds.{is_met_at};

    ghost holding = { λ it place. is_met_at (world it.policy it.stores.now) place };

    fn holds(&self, place: u32) -> bool {
        match self.policy.forms.condition_at(place, 0) {
            Some(condition) => self.is_met(condition),
            None => false,
        }
    }
}

impl<'p, 'a, 's> Evaluated<'p, 'a, 's> {
    /// Whether the condition of the opcode at a place holds, by values of rules over the same stores. Those that it asks for are
    /// kept there. The position is how many guards of the package, or conditions of questions, stand before it: it may spare a
    /// search, and is not what decides.
    #[inline(always)]
    pub fn holds_by(&self, place: u32, position: u32, rules: &mut RuleValues) -> bool
        requires { AreRuleValues (bytes_of self.now.policy) self.now.stores.now rules.old }
        ensures holds { result ≡ is_met_at (world self.now.policy self.now.stores.now) place }
        ensures kept { AreRuleValues (bytes_of self.now.policy) self.now.stores.now rules.new }
    {
        let policy = self.policy;
        match policy.forms.condition_at(place, position) {
            Some(condition) => condition_holds_by(
                condition,
                policy.forms,
                policy.questions,
                self.stores,
                rules,
            ),
            None => false,
        }
    }

    /// Whether an expression holds in the scope of the question of an id, or of 0 for none, by values of rules over the same stores.
    /// Those that it asks for are kept there.
    #[inline(always)]
    pub fn expression_holds_by(
        &self,
        expression: Expr<'a>,
        this: u16,
        rules: &mut RuleValues,
    ) -> bool
        requires { AreRuleValues (bytes_of self.now.policy) self.now.stores.now rules.old }
        ensures holds { result ≡ holds (value (rules_of (bytes_of self.now.policy))
            (answers (nodes_of (bytes_of self.now.policy)) self.now.stores.now) this
            (tree_of expression.entry)) }
        ensures kept { AreRuleValues (bytes_of self.now.policy) self.now.stores.now rules.new }
    {
        let policy = self.policy;
        let answers = policy.questions.over(self.stores);
        expression.holds_by(&answers, policy.forms, this, rules)
    }
}

/// Conditions that are kept.
#[derive(Drop)]
pub(crate) struct ByConditions<'p, C> {
    pub(crate) conditions: &'p C,
}

impl<'p, C: Conditions> ByConditions<'p, C> {
    // Whether the condition of a guard holds.
    #[inline(always)]
    fn guard_holds(&self, guard: Guard<'_>) -> bool
        ensures { result ≡ C.holding self.now.conditions.now (guard_node guard.entry).place }
    {
        match guard.number() {
            Some(number) => self.conditions.guard_holds(number, guard.place()),
            None => self.conditions.holds(guard.place()),
        }
    }

    // Whether a condition of a question holds.
    fn condition_holds(&self, condition: ConditionView<'_>) -> bool
        ensures { result
            ≡ C.holding self.now.conditions.now (condition_node condition.entry).place }
    {
        match condition.number() {
            Some(number) => self.conditions.condition_holds(number, condition.place()),
            None => self.conditions.holds(condition.place()),
        }
    }
}

impl<'p, 'a, C: Conditions> Verdicts<'a> for ByConditions<'p, C> {
    ghost met = { λ it n. C.holding it.conditions.now n.place };

    #[inline(always)]
    fn is_met(&self, condition: AnyCondition<'a>) -> bool {
        match condition {
            AnyCondition::Guard(guard) => self.guard_holds(guard),
            AnyCondition::Question(condition) => self.condition_holds(condition),
        }
    }
}

/// Whether a condition holds over some stores.
pub(crate) fn condition_holds<'a>(
    condition: AnyCondition<'a>,
    forms: &Forms<'a>,
    questions: &Questions<'a>,
    stores: &Stores,
) -> bool
    requires { questions.now.ifr ≡ forms.now }
    ensures { result ≡ is_met_over (nodes_of forms.now) stores.now
        (any_condition_node condition.entry) }
{
    let answers = questions.over(stores);
    let expression = condition.condition();
    expression.holds(&answers, forms, condition.this())
}

/// The same, by values of rules over these stores. Those that it asks for are kept there.
#[inline(always)]
pub(crate) fn condition_holds_by<'a>(
    condition: AnyCondition<'a>,
    forms: &Forms<'a>,
    questions: &Questions<'a>,
    stores: &Stores,
    rules: &mut RuleValues,
) -> bool
    requires together { questions.now.ifr ≡ forms.now }
    requires kept { AreRuleValues forms.now stores.now rules.old }
    ensures holds { result ≡ is_met_over (nodes_of forms.now) stores.now
        (any_condition_node condition.entry) }
    ensures kept { AreRuleValues forms.now stores.now rules.new }
{
    let answers = questions.over(stores);
    let expression = condition.condition();
    expression.holds_by(&answers, forms, condition.this(), rules)
}

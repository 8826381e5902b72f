//! What a policy decides of the values of questions.

ghost use Rattle.std.specs.Prelude.{◌≡◌, true, map, option_map, IsErr};
ghost use Rattle.std.specs.Iterator.{YieldsFirstBy};
ghost use Rattle.std.specs.List.{find};
ghost use Rattle.ifr_opcodes.specs.Opcode.{has_scope};
ghost use Rattle.ifr_nodes.specs.Nodes.{warnings};
ghost use Rattle.ifr_nodes.specs.code.Checked.{IsNodeOf};
ghost use Rattle.ifr_scopes.specs.code.ConditionsLeft.{conditions_of_left};
ghost use Rattle.ifr_scopes.specs.code.NoSubmitsLeft.{no_submit_node};
ghost use Rattle.ifr_scopes.specs.code.Parts.{condition_node};
ghost use Rattle.hii_questions.specs.code.Views.{question_node};
ghost use Rattle.guard_policy.specs.Policy as spec;
ghost use Rattle.guard_policy.specs.code.Answers as denying;
ghost use Rattle.guard_policy.specs.code.KeptConditions.{DecidesBy};
ghost use Rattle.guard_policy.specs.code.RuleValues.{AreRuleValues};
ghost use Rattle.guard_policy.specs.code.Views.{world, world_by};
ghost use Rattle.guard_policy.specs.Warned.{warning_of};
ghost use Rattle.guard_policy.specs.code.WarningsLeft.{warnings_among, warnings_left};
ghost use Rattle.guard_policy.specs.World.{is_met};
ghost use Rattle.guard_policy.specs.declared.support.Decision.TheVariants.{MaySubmit};

use crate::conditions::{ByConditions, Conditions, Verdicts, condition_holds, condition_holds_by};
use crate::denial::Denial;
use crate::policy::Policy;
use crate::warnings::{Warning, Warnings};
use hii_questions::{DenialKind, Question};
use hii_varstore::Stores;
use ifr_expr::RuleValues;
use ifr_opcodes::{INCONSISTENT_IF, WARNING_IF};
use ifr_scopes::{AnyCondition, ConditionView, ConditionsOf, NoSubmit};

impl<'a, 's> Policy<'a, 's> {
    /// Whether a condition of a question holds.
    pub(crate) fn condition_holds(&self, condition: ConditionView<'a>, stores: &Stores) -> bool
        ensures { result ≡ is_met (world self.now stores.now) (condition_node condition.entry) }
    {
        condition_holds(
            AnyCondition::Question(condition),
            self.forms,
            self.questions,
            stores,
        )
    }

    /// Whether a condition of a question holds, by values of rules over these stores. Those that it asks for are kept there.
    pub(crate) fn condition_holds_by(
        &self,
        condition: ConditionView<'a>,
        stores: &Stores,
        rules: &mut RuleValues,
    ) -> bool
        requires { AreRuleValues self.now.forms.now stores.now rules.old }
        ensures holds { result
            ≡ is_met (world self.now stores.now) (condition_node condition.entry) }
        ensures kept { AreRuleValues self.now.forms.now stores.now rules.new }
    {
        condition_holds_by(
            AnyCondition::Question(condition),
            self.forms,
            self.questions,
            stores,
            rules,
        )
    }

    // The first of some conditions that holds.
    fn first_holding(
        &self,
        mut conditions: ConditionsOf<'_, 'a>,
        stores: &Stores,
    ) -> Option<ConditionView<'a>>
        ensures { option_map condition_node result
            ≡ find (is_met (world self.now stores.now)) (conditions_of_left conditions.entry) }
    {
        while let Some(condition) = conditions.next() {
            if self.condition_holds(condition, stores) {
                return Some(condition);
            }
        }
        None
    }

    // The first of some conditions that holds, by values of rules over these stores.
    #[inline(always)]
    fn first_holding_by(
        &self,
        mut conditions: ConditionsOf<'_, 'a>,
        stores: &Stores,
        rules: &mut RuleValues,
    ) -> Option<ConditionView<'a>>
        requires { AreRuleValues self.now.forms.now stores.now rules.old }
        ensures first { option_map condition_node result
            ≡ find (is_met (world self.now stores.now)) (conditions_of_left conditions.entry) }
        ensures kept { AreRuleValues self.now.forms.now stores.now rules.new }
    {
        while let Some(condition) = conditions.next() {
            if self.condition_holds_by(condition, stores, rules) {
                return Some(condition);
            }
        }
        None
    }

    /// Whether the value of a question of the package is consistent: no INCONSISTENT_IF of it holds over these stores. The
    /// denial, of the kind InconsistentIf, names the first by place, and its text.
    #[tactic(auto, using(ifr_opcodes::proofs::StatementLemmas::inconsistent_is))]
    pub fn consistent(&self, question: Question<'a>, stores: &Stores) -> Result<(), Denial>
        requires { IsNodeOf self.now.forms.now (question_node question) }
        ensures { result ≡ denying.unless
            (spec.inconsistent (world self.now stores.now) (question_node question.entry)) }
    {
        let conditions = self
            .forms
            .conditions_of(question.statement(), INCONSISTENT_IF);
        match self.first_holding(conditions, stores) {
            Some(condition) => Err(Denial::telling(DenialKind::InconsistentIf, condition)),
            None => Ok(()),
        }
    }

    /// Whether the value of a question of the package is consistent, by values of rules over these stores. Those that it asks for
    /// are kept there. Its conditions are looked for first near a position, and then near that where they stand.
    #[tactic(auto, using(ifr_opcodes::proofs::StatementLemmas::inconsistent_is))]
    #[inline(always)]
    pub fn consistent_by(
        &self,
        question: Question<'a>,
        stores: &Stores,
        rules: &mut RuleValues,
        near: &mut usize,
    ) -> Result<(), Denial>
        requires node { IsNodeOf self.now.forms.now (question_node question) }
        requires kept { AreRuleValues self.now.forms.now stores.now rules.old }
        ensures denied { result ≡ denying.unless
            (spec.inconsistent (world self.now stores.now) (question_node question.entry)) }
        // Where the question opens no scope, there is no denial.
        ensures scoped { IsErr result → has_scope (question_node question.entry).op ≡ true }
        ensures kept { AreRuleValues self.now.forms.now stores.now rules.new }
    {
        if !question.statement().opens_scope() {
            return Ok(());
        }
        self.consistent_inside(question, stores, rules, near)
    }

    // The same, of a question that opens a scope.
    #[tactic(auto, using(ifr_opcodes::proofs::StatementLemmas::inconsistent_is))]
    #[inline(never)]
    fn consistent_inside(
        &self,
        question: Question<'a>,
        stores: &Stores,
        rules: &mut RuleValues,
        near: &mut usize,
    ) -> Result<(), Denial>
        requires node { IsNodeOf self.now.forms.now (question_node question) }
        requires kept { AreRuleValues self.now.forms.now stores.now rules.old }
        ensures denied { result ≡ denying.unless
            (spec.inconsistent (world self.now stores.now) (question_node question.entry)) }
        ensures kept { AreRuleValues self.now.forms.now stores.now rules.new }
    {
        let inconsistents = self
            .forms
            .conditions_near(question.statement(), INCONSISTENT_IF, *near);
        *near = self.forms.position_of_conditions(&inconsistents);
        match self.first_holding_by(inconsistents, stores, rules) {
            Some(condition) => Err(Denial::telling(DenialKind::InconsistentIf, condition)),
            None => Ok(()),
        }
    }

    // Whether a condition denies a submission: it holds, and no DISABLE_IF around it was removed.
    fn denies<V: Verdicts<'a>>(&self, nosubmit: NoSubmit<'_, 'a>, verdicts: &V) -> bool
        ensures { result ≡ spec.denies_submission (world_by self.now (V.met verdicts.now))
            (no_submit_node nosubmit.entry) }
    {
        let condition = AnyCondition::Question(nosubmit.condition);
        verdicts.is_met(condition) && !self.is_removed(&nosubmit)
    }

    // Whether stores may be submitted, by conditions from anywhere.
    fn may_submit_with<V: Verdicts<'a>>(&self, verdicts: &V) -> Result<(), Denial>
        ensures { result ≡ denying.unless
            (spec.unsubmitted (world_by self.now (V.met verdicts.now))) }
    {
        let mut conditions = self.forms.nosubmits();
        while let Some(nosubmit) = conditions.next() {
            let condition = nosubmit.condition;
            if self.denies(nosubmit, verdicts) {
                return Err(Denial::telling(DenialKind::NoSubmitIf, condition));
            }
        }
        Ok(())
    }

    /// Whether the stores may be submitted: no NO_SUBMIT_IF holds, but those in the scope of a removed DISABLE_IF. The denial, of
    /// the kind NoSubmitIf, names the first by place, and its text.
    pub fn may_submit(&self, stores: &Stores) -> Result<(), Denial>
        ensures { result ≡ denying.unless (spec.unsubmitted (world self.now stores.now)) }
    {
        self.may_submit_with(&self.over(stores))
    }

    /// Whether the stores may be submitted, by what is kept of conditions.
    pub fn may_submit_by<C: Conditions>(&self, conditions: &C) -> Result<(), Denial>
        ensures { DecidesBy (C.holding conditions.now) (world self.now) MaySubmit result }
    {
        self.may_submit_with(&ByConditions { conditions })
    }

    /// Of what a question of the package warns over these stores: the WARNING_IFs of it that hold, by place.
    #[tactic(auto, using(ifr_opcodes::proofs::StatementLemmas::warning_is))]
    pub fn warnings(&self, question: Question<'a>, stores: &'s Stores) -> Warnings<'a, 's>
        requires { IsNodeOf self.now.forms.now (question_node question) }
        ensures { warnings_left result
            ≡ map warning_of (spec.warned (world self.now stores.now)
            (question_node question.entry)) }
    {
        Warnings {
            policy: *self,
            stores,
            conditions: self.forms.conditions_of(question.statement(), WARNING_IF),
        }
    }

    /// The WARNING_IFs of a question of the package, by place.
    #[tactic(auto, using(ifr_opcodes::proofs::StatementLemmas::warning_is))]
    #[inline(always)]
    pub fn warning_conditions(&self, question: Question<'a>) -> ConditionsOf<'s, 'a>
        requires { IsNodeOf self.now.forms.now (question_node question) }
        ensures { conditions_of_left result ≡ warnings (question_node question.entry) }
    {
        self.forms.conditions_of(question.statement(), WARNING_IF)
    }

    /// Of what the next of some WARNING_IFs that holds over these stores warns, by values of rules over them. Those that it asks
    /// for are kept there.
    pub fn next_warning_by(
        &self,
        conditions: &mut ConditionsOf<'_, 'a>,
        stores: &Stores,
        rules: &mut RuleValues,
    ) -> Option<Warning>
        requires { AreRuleValues self.now.forms.now stores.now rules.old }
        ensures next { YieldsFirstBy (λ warning. warning)
            (warnings_among (world self.now stores.now)) conditions.old result conditions.new }
        ensures kept { AreRuleValues self.now.forms.now stores.now rules.new }
    {
        while let Some(condition) = conditions.next() {
            if self.condition_holds_by(condition, stores, rules) {
                return Some(Warning::of(condition));
            }
        }
        None
    }
}

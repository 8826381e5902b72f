//! The conditions of decisions.

ghost use Rattle.std.specs.Prelude.{◌≡◌};
ghost use Rattle.std.specs.Iterator.{YieldsFirstBy};
ghost use Rattle.hii_varstore.specs.Stores.{StoreMap};
ghost use Rattle.ifr_scopes.specs.code.AnyConditions.{any_condition_node};
ghost use Rattle.guard_policy.specs.code.AskedLeft.{asked_left};
ghost use Rattle.guard_policy.specs.laws.Support.{conditions, IsSubjectOf};
ghost use Rattle.guard_policy.specs.code.Views.{world};

use crate::around::Around;
use crate::option_conditions::OptionConditions;
use crate::policy::Policy;
use crate::submission::Submission;
use crate::support::Decision;
use ifr_opcodes::{INCONSISTENT_IF, WARNING_IF};
use ifr_scopes::{AnyCondition, ConditionsOf};

/// The conditions of a decision that are left, in the order in which they decide.
#[derive(Drop)]
pub(crate) enum DecisionConditions<'a, 's> {
    /// The conditions around a form or a statement.
    Around(Around<'a, 's>),
    /// The conditions around the options of a value.
    Options(OptionConditions<'a, 's>),
    /// The conditions of a question.
    Question(ConditionsOf<'s, 'a>),
    /// The conditions of all questions that deny a submission.
    Submission(Submission<'a, 's>),
}

impl<'a, 's> DecisionConditions<'a, 's> {
    /// The conditions of a decision of a policy.
    #[tactic(auto, using(ifr_opcodes::proofs::StatementLemmas::inconsistent_is, ifr_opcodes::proofs::StatementLemmas::warning_is))]
    pub(crate) fn of(policy: Policy<'a, 's>, decision: Decision<'a>) -> DecisionConditions<'a, 's>
        requires { IsSubjectOf policy.forms.now decision }
        ensures { (stores : StoreMap) → asked_left result
            ≡ conditions (world policy.entry stores) decision.entry }
    {
        let forms = policy.forms;
        match decision {
            Decision::Listed(statement) => {
                DecisionConditions::Around(Around::hiding(forms, statement.place()))
            }
            Decision::Changeable(statement) => {
                DecisionConditions::Around(Around::changing(forms, statement.place()))
            }
            Decision::OptionOpen(question, value) => {
                DecisionConditions::Options(OptionConditions::of(forms, question, value))
            }
            Decision::Opens(form) => {
                DecisionConditions::Around(Around::hiding(forms, form.place()))
            }
            Decision::Consistent(question) => {
                DecisionConditions::Question(forms.conditions_of(
                    question.statement(),
                    INCONSISTENT_IF,
                ))
            }
            Decision::MaySubmit => DecisionConditions::Submission(Submission {
                policy,
                conditions: forms.nosubmits(),
            }),
            Decision::Warnings(question) => {
                DecisionConditions::Question(forms.conditions_of(question.statement(), WARNING_IF))
            }
        }
    }

    /// Goes to the next.
    pub(crate) fn step(&mut self) -> Option<AnyCondition<'a>>
        ensures { YieldsFirstBy any_condition_node asked_left self.old result self.new }
    {
        match self {
            DecisionConditions::Around(around) => Some(AnyCondition::Guard(around.step()?)),
            DecisionConditions::Options(options) => Some(AnyCondition::Guard(options.step()?)),
            DecisionConditions::Question(conditions) => {
                Some(AnyCondition::Question(conditions.next()?))
            }
            DecisionConditions::Submission(submission) => {
                Some(AnyCondition::Question(submission.step()?))
            }
        }
    }
}

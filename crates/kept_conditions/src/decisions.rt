//! Decisions over stores by what is kept over them.
//!
//! Each gives what is kept to the call of the policy that decides by such values: so a command goes over the guards around its
//! statement and evaluates none of their conditions. The answer is that of the policy over the stores.

ghost use Rattle.std.specs.Prelude.{◌≡◌, ◌==◌, ◌&&◌, ℕ, IfOk, None, take};
ghost use Rattle.std.specs.List.{list_any};
ghost use Rattle.ifr_nodes.specs.code.Checked.{IsNodeOf};
ghost use Rattle.ifr_scopes.specs.code.Lists.{form_node, statement_node};
ghost use Rattle.ifr_nodes.specs.Nodes.{nodes_of, options};
ghost use Rattle.hii_values.specs.code.ItemsLeft.{items_left};
ghost use Rattle.hii_values.specs.code.MetValues.{is_met, is_sought};
ghost use Rattle.hii_questions.specs.Fields.{asked};
ghost use Rattle.hii_questions.specs.code.Views.{question_node, question_view};
ghost use Rattle.guard_policy.specs.Policy.{closed, fixed, hidden, unsubmitted};
ghost use Rattle.guard_policy.specs.code.Answers.{unless};
ghost use Rattle.guard_policy.specs.code.OpenValues.{opens};
ghost use Rattle.guard_policy.specs.code.Surroundings.{IsAroundNode, answer_of};
ghost use Rattle.guard_policy.specs.code.Views.{bytes_of, world};

use crate::cache::KeptStores;
use guard_policy::{Denial, Policy};
use hii_questions::{Items, MetValues, Question};
use ifr_scopes::{Around, Form, Statement};

impl<'a> KeptStores<'a> {
    /// Whether a form is opened over these stores, as the policy decides it. The policy is that of the package.
    pub fn opens(&self, policy: Policy<'a, '_>, form: Form<'a>) -> Result<(), Denial>
        requires package { bytes_of policy ≡ self.now.ifr }
        requires node { IsNodeOf (bytes_of policy) (form_node form) }
        ensures { result ≡ unless
            (hidden (world policy.entry self.now.stores) (form_node form.entry)) }
    {
        policy.opens_by(form, self.kept())
    }

    /// Whether a statement may be changed over these stores, as the policy decides it.
    pub fn changeable(&self, policy: Policy<'a, '_>, statement: Statement<'a>) -> Result<(), Denial>
        requires package { bytes_of policy ≡ self.now.ifr }
        requires node { IsNodeOf (bytes_of policy) (statement_node statement) }
        ensures { result ≡ unless
            (fixed (world policy.entry self.now.stores) (statement_node statement.entry)) }
    {
        policy.changeable_by(statement, self.kept())
    }

    /// Whether a question may be changed over these stores, as the policy decides it of its statement.
    #[inline(always)]
    pub fn question_changeable(
        &self,
        policy: Policy<'a, '_>,
        question: Question<'a>,
    ) -> Result<(), Denial>
        requires package { bytes_of policy ≡ self.now.ifr }
        requires node { IsNodeOf (bytes_of policy) (question_node question) }
        requires own { question_view question
            ≡ asked (nodes_of (bytes_of policy)) (question_node question) }
        ensures { result ≡ unless
            (fixed (world policy.entry self.now.stores) (question_node question.entry)) }
    {
        policy.question_changeable_by(question, self.kept())
    }

    /// What stands around a question that may be changed over these stores, as the policy decides it. Where it may not, the denial is
    /// that of `question_changeable`.
    #[inline(always)]
    pub fn changeable_question<'s>(
        &self,
        policy: Policy<'a, 's>,
        question: Question<'a>,
    ) -> Result<Around<'s, 'a>, Denial>
        requires package { bytes_of policy ≡ self.now.ifr }
        requires node { IsNodeOf (bytes_of policy) (question_node question) }
        requires own { question_view question
            ≡ asked (nodes_of (bytes_of policy)) (question_node question) }
        ensures answer { answer_of result ≡ unless
            (fixed (world policy.entry self.now.stores) (question_node question.entry)) }
        ensures around { IfOk result
            (IsAroundNode (bytes_of policy.entry) (question_node question.entry)) }
    {
        policy.changeable_question_by(question, self.kept())
    }

    /// Whether a question that may be changed over these stores may be given a value of its options, as the policy decides it, with
    /// what stands around the question at hand.
    pub fn option_open_within<'s>(
        &self,
        policy: Policy<'a, 's>,
        question: Question<'a>,
        value: u64,
        around: Around<'s, 'a>,
    ) -> Result<(), Denial>
        requires package { bytes_of policy ≡ self.now.ifr }
        requires node { IsNodeOf (bytes_of policy) (question_node question) }
        requires around { IsAroundNode (bytes_of policy) (question_node question) around }
        requires free { fixed (world policy self.now.stores) (question_node question) ≡ None }
        ensures { result ≡ unless
            (closed (world policy.entry self.now.stores) (question_node question.entry) value) }
    {
        policy.option_open_within_by(question, value, around, self.kept())
    }

    /// Which of some values of its options a question may be given that may be changed over these stores, with what stands around
    /// it at hand: of the first 255 of them those are met of which an option may be chosen, found in one walk over the options. Of
    /// each other `option_open_within` tells what denies it.
    pub fn open_values<'s>(
        &self,
        policy: Policy<'a, 's>,
        question: Question<'a>,
        values: Items<'_>,
        around: Around<'s, 'a>,
    ) -> MetValues
        requires package { bytes_of policy ≡ self.now.ifr }
        requires node { IsNodeOf (bytes_of policy) (question_node question) }
        requires around { IsAroundNode (bytes_of policy) (question_node question) around }
        requires free { fixed (world policy self.now.stores) (question_node question) ≡ None }
        ensures sought { (v : ℕ) → is_sought result v
            ≡ list_any (λ item. item == v) (take 255 (items_left values.entry)) }
        ensures met { (v : ℕ) → is_met result v ≡ (is_sought result v
            && list_any (opens (world policy.entry self.now.stores) v)
            (options (question_node question.entry))) }
    {
        policy.open_values_by(question, values, around, self.kept())
    }

    /// Whether these stores may be submitted, as the policy decides it.
    pub fn may_submit(&self, policy: Policy<'a, '_>) -> Result<(), Denial>
        requires { bytes_of policy ≡ self.now.ifr }
        ensures { result ≡ unless (unsubmitted (world policy.entry self.now.stores)) }
    {
        policy.may_submit_by(self.kept())
    }
}

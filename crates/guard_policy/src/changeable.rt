//! Questions that may be changed, and the values of their options.

ghost use Rattle.std.specs.Prelude.{◌≡◌, IfOk, None};
ghost use Rattle.ifr_opcodes.specs.Forest.{Node};
ghost use Rattle.ifr_nodes.specs.code.Checked.{IsNodeOf};
ghost use Rattle.ifr_scopes.specs.code.Lists.{statement_node};
ghost use Rattle.ifr_nodes.specs.Nodes.{nodes_of};
ghost use Rattle.ifr_scopes.specs.declared.statement.Statement.{Statement};
ghost use Rattle.hii_questions.specs.Fields.{asked};
ghost use Rattle.hii_questions.specs.code.Views.{question_node, question_view};
ghost use Rattle.guard_policy.specs.Policy as spec;
ghost use Rattle.guard_policy.specs.code.Answers as denying;
ghost use Rattle.guard_policy.specs.code.KeptConditions.{DecidesBy};
ghost use Rattle.guard_policy.specs.code.Surroundings.{IsAroundNode, answer_of};
ghost use Rattle.guard_policy.specs.code.Views.{world, world_by};
ghost use Rattle.guard_policy.specs.declared.support.Decision.TheVariants.{Changeable, OptionOpen};

use crate::conditions::{ByConditions, Conditions, Verdicts};
use crate::decisions::fixed_question;
use crate::denial::Denial;
use crate::effects::Effects;
use crate::policy::Policy;
use hii_questions::Question;
use ifr_scopes::Around;

impl<'a, 's> Policy<'a, 's> {
    // What stands around a question that may be changed, by conditions from anywhere.
    #[inline(always)]
    fn changeable_question_with<V: Verdicts<'a>>(
        &self,
        question: Question<'a>,
        verdicts: &V,
    ) -> Result<Around<'s, 'a>, Denial>
        requires node { IsNodeOf self.now.forms.now (question_node question) }
        requires asked { question_view question
            ≡ asked (nodes_of self.now.forms.now) (question_node question) }
        ensures answer { answer_of result ≡ denying.unless
            (spec.fixed (world_by self.now (V.met verdicts.now)) (question_node question.entry)) }
        ensures around { IfOk result
            (IsAroundNode self.now.forms.now (question_node question.entry)) }
    {
        let around = self
            .forms
            .around_at(question.place(), question.statement().position());
        self.unless_covered(around, verdicts)?;
        fixed_question(question)?;
        Ok(around)
    }

    /// What stands around a question of the package that may be changed, by what is kept of conditions. Where it may not, the denial
    /// is that of `question_changeable_by`.
    #[inline(always)]
    pub fn changeable_question_by<C: Conditions>(
        &self,
        question: Question<'a>,
        conditions: &C,
    ) -> Result<Around<'s, 'a>, Denial>
        requires node { IsNodeOf self.now.forms.now (question_node question) }
        requires asked { question_view question
            ≡ asked (nodes_of self.now.forms.now) (question_node question) }
        ensures answer { (statement : Statement)
            → statement_node statement ≡ question_node question.entry
            → DecidesBy (C.holding conditions.now) (world self.now)
            (Changeable statement) (answer_of result) }
        ensures around { IfOk result
            (IsAroundNode self.now.forms.now (question_node question.entry)) }
    {
        self.changeable_question_with(question, &ByConditions { conditions })
    }

    /// Whether a question that may be changed may be given a value of its options, by what is kept of conditions: what
    /// `option_open_by` answers. With what stands around the question at hand, no condition is asked for an option around which
    /// nothing else stands.
    pub fn option_open_within_by<C: Conditions>(
        &self,
        question: Question<'a>,
        value: u64,
        around: Around<'s, 'a>,
        conditions: &C,
    ) -> Result<(), Denial>
        requires node { IsNodeOf self.now.forms.now (question_node question) }
        requires around { IsAroundNode self.now.forms.now (question_node question) around }
        requires free { spec.fixed
            (world_by self.now (λ (n : Node). C.holding conditions.now n.place))
            (question_node question) ≡ None }
        ensures { DecidesBy (C.holding conditions.now) (world self.now)
            (OptionOpen question.entry value) result }
    {
        let free = Effects::free(around.innermost());
        self.option_open_with(question, value, free, &ByConditions { conditions })
    }
}

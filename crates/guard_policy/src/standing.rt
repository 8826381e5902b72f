//! How statements stand: whether each is seen, and whether it may be changed.

ghost use Rattle.std.specs.Prelude.{◌≡◌, option_and_then, option_map};
ghost use Rattle.ifr_nodes.specs.code.Checked.{IsNodeOf};
ghost use Rattle.ifr_scopes.specs.code.Lists.{statement_node};
ghost use Rattle.ifr_scopes.specs.code.LocksLeft.{lock_node};
ghost use Rattle.ifr_nodes.specs.Nodes.{nodes_of};
ghost use Rattle.hii_values.specs.declared.denial.DenialKind.TheVariants.{Locked};
ghost use Rattle.hii_questions.specs.code.Views.{question_view};
ghost use Rattle.guard_policy.specs.Policy as spec;
ghost use Rattle.guard_policy.specs.code.Answers as denying;
ghost use Rattle.guard_policy.specs.code.Effects.{AreEffects, AreEffectsBy};
ghost use Rattle.guard_policy.specs.code.KeptConditions.{DecidesBy};
ghost use Rattle.guard_policy.specs.code.Standings.{TellsQuestion, changeable_answer, listed_answer};
ghost use Rattle.guard_policy.specs.code.Views.{world, world_by};
ghost use Rattle.guard_policy.specs.declared.support.Decision.TheVariants.{Listed, Changeable};

use crate::conditions::{ByConditions, Conditions, Verdicts};
use crate::covering::unless_grayed_out;
use crate::decisions::fixed_as_question;
use crate::denial::Denial;
use crate::effects::Effects;
use crate::policy::Policy;
use hii_questions::Question;
use ifr_scopes::{LockView, Statement};

/// What there is to know of a statement that is seen.
#[derive(Clone, Copy)]
pub struct SeenStatement<'a> {
    /// The question that it is, if it is one.
    pub question: Option<Question<'a>>,
    /// Whether it may be changed.
    pub changeable: Result<(), Denial>,
}

/// How a statement stands.
#[derive(Clone, Copy)]
pub enum Standing<'a> {
    /// It is not seen, and so may not be changed.
    Hidden(Denial),
    /// It is seen.
    Seen(SeenStatement<'a>),
}

// What forbids that something is changed that is not hidden: what grays it out, else the LOCKED, else itself.
fn unless_fixed(
    grays_out: Option<Denial>,
    lock: Option<LockView<'_>>,
    question: Option<Question<'_>>,
) -> Result<(), Denial>
    ensures { result ≡ denying.unless
        (spec.or_else (spec.or_else grays_out
        (option_map (spec.denied_by Locked) (option_map lock_node lock.entry)))
        (option_and_then spec.fixed_question (option_map question_view question.entry))) }
{
    unless_grayed_out(grays_out, lock)?;
    fixed_as_question(question)
}

impl<'a, 's> Policy<'a, 's> {
    // How a statement stands beside others, with the denials of the guards that were asked last, by conditions from
    // anywhere.
    fn standing_with<V: Verdicts<'a>>(
        &self,
        statement: Statement<'a>,
        last: &mut Effects,
        verdicts: &V,
    ) -> Standing<'a>
        requires node { IsNodeOf self.now.forms.now (statement_node statement) }
        requires last { AreEffects (world_by self.now (V.met verdicts.now)) last.old }
        ensures listed { listed_answer result ≡ denying.unless
            (spec.hidden (world_by self.now (V.met verdicts.now))
            (statement_node statement.entry)) }
        ensures changeable { changeable_answer result ≡ denying.unless
            (spec.fixed (world_by self.now (V.met verdicts.now)) (statement_node statement.entry)) }
        ensures question { TellsQuestion (nodes_of self.now.forms.now)
            (statement_node statement.entry) result }
        ensures last { AreEffects (world_by self.now (V.met verdicts.now)) last.new }
    {
        let around = self
            .forms
            .around_at(statement.place(), statement.position());
        self.effects_beside(around, last, verdicts);
        if let Some(denial) = last.hides {
            return Standing::Hidden(denial);
        }
        let question = self.question(statement);
        Standing::Seen(SeenStatement {
            question,
            changeable: unless_fixed(last.grays_out, around.lock(), question),
        })
    }

    /// How a statement of the package stands beside others, with the denials of the guards that were asked last, by what is
    /// kept of conditions: what `listed_by` and `changeable_by` answer, found in one look at what stands around it, and
    /// where it is seen what `question` answers.
    pub fn standing_by<C: Conditions>(
        &self,
        statement: Statement<'a>,
        last: &mut Effects,
        conditions: &C,
    ) -> Standing<'a>
        requires node { IsNodeOf self.now.forms.now (statement_node statement) }
        requires last { AreEffectsBy self.now (C.holding conditions.now) last.old }
        ensures listed { DecidesBy (C.holding conditions.now) (world self.now)
            (Listed statement.entry) (listed_answer result) }
        ensures changeable { DecidesBy (C.holding conditions.now) (world self.now)
            (Changeable statement.entry) (changeable_answer result) }
        ensures question { TellsQuestion (nodes_of self.now.forms.now)
            (statement_node statement.entry) result }
        ensures last { AreEffectsBy self.now (C.holding conditions.now) last.new }
    {
        self.standing_with(statement, last, &ByConditions { conditions })
    }
}

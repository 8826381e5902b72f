//! What a policy decides of forms, statements and options.

ghost use Rattle.std.specs.Prelude.{◌≡◌, IfSome, option_and_then, option_map};
ghost use Rattle.hii_varstore.specs.Stores.{StoreMap};
ghost use Rattle.ifr_nodes.specs.code.Checked.{AreNodesOf, IsNodeOf};
ghost use Rattle.ifr_scopes.specs.code.Lists.{form_node, statement_node};
ghost use Rattle.ifr_nodes.specs.Nodes.{nodes_of};
ghost use Rattle.ifr_scopes.specs.code.Parts.{option_node};
ghost use Rattle.ifr_scopes.specs.declared.statement.Statement.{Statement};
ghost use Rattle.hii_questions.specs.Fields.{asked};
ghost use Rattle.hii_questions.specs.code.PlacedLeft.{placed_left};
ghost use Rattle.hii_questions.specs.code.Views.{question_node, question_view};
ghost use Rattle.guard_policy.specs.Policy as spec;
ghost use Rattle.guard_policy.specs.code.Answers as denying;
ghost use Rattle.guard_policy.specs.code.KeptConditions.{DecidesBy, Tells, TellsAll};
ghost use Rattle.guard_policy.specs.laws.Support.{around, suppressing};
ghost use Rattle.guard_policy.specs.code.Effects.{AreEffects, AreEffectsBy};
ghost use Rattle.guard_policy.specs.code.Views.{world, world_by};
ghost use Rattle.guard_policy.specs.code.Worlds.{is_met_at};
ghost use Rattle.guard_policy.specs.declared.support.Decision.TheVariants.{Listed, Changeable, OptionOpen, Opens};

use crate::conditions::{ByConditions, Conditions, Evaluated, Verdicts};
use crate::denial::Denial;
use crate::effects::Effects;
use crate::policy::Policy;
use hii_questions::{DenialKind, PlacedOptions, Question};
use hii_varstore::Stores;
use ifr_scopes::{Form, OptionView, Statement, StatementKind};

// Whether a question lacks what it needs to be changed: a reference a form to which it leads, another a field.
#[inline(always)]
fn is_outside(question: Question<'_>) -> bool
    ensures { result ≡ spec.is_never_changed (question_view question.entry) }
{
    match question.statement().kind() {
        StatementKind::Ref(reference) => reference.target().is_none(),
        _ => question.field().is_none(),
    }
}

/// Whether a question forbids a change by itself.
#[inline(always)]
pub(crate) fn fixed_question(question: Question<'_>) -> Result<(), Denial>
    ensures { result ≡ denying.unless (spec.fixed_question (question_view question.entry)) }
{
    let kind = if question.op().is_read_only() {
        DenialKind::ReadOnly
    } else if is_outside(question) {
        DenialKind::Outside
    } else {
        return Ok(());
    };
    Err(Denial::by(kind, question.place()))
}

/// Whether what a statement is as a question forbids a change by itself: nothing does where it is none.
pub(crate) fn fixed_as_question(question: Option<Question<'_>>) -> Result<(), Denial>
    ensures { result ≡ denying.unless
        (option_and_then spec.fixed_question (option_map question_view question.entry)) }
{
    match question {
        Some(question) => fixed_question(question),
        None => Ok(()),
    }
}

impl<'a, 's> Policy<'a, 's> {
    /// The conditions of the form set over some stores, by which each call that ends in `_by` answers as the call without over
    /// these stores.
    pub fn over<'p>(&self, stores: &'p Stores) -> Evaluated<'p, 'a, 's>
        ensures policy { result.policy ≡ self.now }
        ensures stores { result.stores.now ≡ stores.now }
        ensures tells { TellsAll (is_met_at (world self.now stores.now))
            (world self.now stores.now) }
    {
        Evaluated {
            policy: *self,
            stores,
        }
    }

    /// Whether a statement of the package is seen: not where a DISABLE_IF around it was removed or a SUPPRESS_IF around it
    /// holds. The denial, of the kind DisableIf or SuppressIf, names the outermost such.
    pub fn listed(&self, statement: Statement<'a>, stores: &Stores) -> Result<(), Denial>
        requires { IsNodeOf self.now.forms.now (statement_node statement) }
        ensures { result ≡ denying.unless
            (spec.hidden (world self.now stores.now) (statement_node statement.entry)) }
    {
        self.seen_at(statement.place(), statement.position(), &self.over(stores))
    }

    /// Whether a statement of the package is seen, by what is kept of conditions.
    pub fn listed_by<C: Conditions>(
        &self,
        statement: Statement<'a>,
        conditions: &C,
    ) -> Result<(), Denial>
        requires { IsNodeOf self.now.forms.now (statement_node statement) }
        ensures { DecidesBy (C.holding conditions.now) (world self.now)
            (Listed statement.entry) result }
    {
        self.seen_at(
            statement.place(),
            statement.position(),
            &ByConditions { conditions },
        )
    }

    /// The same beside other statements, with the denials of the guards that were asked last: at first those of none.
    pub fn listed_beside_by<C: Conditions>(
        &self,
        statement: Statement<'a>,
        last: &mut Effects,
        conditions: &C,
    ) -> Result<(), Denial>
        requires node { IsNodeOf self.now.forms.now (statement_node statement) }
        requires last { AreEffectsBy self.now (C.holding conditions.now) last.old }
        ensures listed { DecidesBy (C.holding conditions.now) (world self.now)
            (Listed statement.entry) result }
        ensures last { AreEffectsBy self.now (C.holding conditions.now) last.new }
    {
        self.seen_beside(
            statement.place(),
            statement.position(),
            last,
            &ByConditions { conditions },
        )
    }

    /// Whether an option of a question is shown, by the rule of `listed` and by what is kept of conditions.
    pub fn option_listed_by<C: Conditions>(
        &self,
        option: OptionView<'a>,
        conditions: &C,
    ) -> Result<(), Denial>
        requires { IsNodeOf self.now.forms.now (option_node option) }
        ensures { (stores : StoreMap)
            → Tells (C.holding conditions.now) (world self.now stores)
            (suppressing (option_node option.entry))
            → result ≡ denying.unless
            (spec.hidden (world self.now stores) (option_node option.entry)) }
    {
        self.seen_at(
            option.place(),
            option.position(),
            &ByConditions { conditions },
        )
    }

    /// The same beside other options, with the denials of the guards that were asked last: at first those of none.
    pub fn option_listed_beside_by<C: Conditions>(
        &self,
        option: OptionView<'a>,
        last: &mut Effects,
        conditions: &C,
    ) -> Result<(), Denial>
        requires node { IsNodeOf self.now.forms.now (option_node option) }
        requires last { AreEffectsBy self.now (C.holding conditions.now) last.old }
        ensures listed { (stores : StoreMap)
            → Tells (C.holding conditions.now) (world self.now stores)
            (suppressing (option_node option.entry))
            → result ≡ denying.unless
            (spec.hidden (world self.now stores) (option_node option.entry)) }
        ensures last { AreEffectsBy self.now (C.holding conditions.now) last.new }
    {
        self.seen_beside(
            option.place(),
            option.position(),
            last,
            &ByConditions { conditions },
        )
    }

    /// Whether a form is opened, by the rule of `listed`.
    pub fn opens(&self, form: Form<'a>, stores: &Stores) -> Result<(), Denial>
        requires { IsNodeOf self.now.forms.now (form_node form) }
        ensures { result ≡ denying.unless
            (spec.hidden (world self.now stores.now) (form_node form.entry)) }
    {
        self.seen_at(form.place(), 0, &self.over(stores))
    }

    /// Whether a form is opened, by what is kept of conditions.
    pub fn opens_by<C: Conditions>(&self, form: Form<'a>, conditions: &C) -> Result<(), Denial>
        requires { IsNodeOf self.now.forms.now (form_node form) }
        ensures { DecidesBy (C.holding conditions.now) (world self.now) (Opens form.entry) result }
    {
        self.seen_at(form.place(), 0, &ByConditions { conditions })
    }

    /// Whether an option may be chosen, as far as it goes: not where it is not shown, a GRAY_OUT_IF around it holds or it is
    /// locked. It stands beside others, with the denials of the guards that were asked last.
    pub(crate) fn option_selectable<V: Verdicts<'a>>(
        &self,
        option: OptionView<'a>,
        last: &mut Effects,
        verdicts: &V,
    ) -> Result<(), Denial>
        requires node { IsNodeOf self.now.forms.now (option_node option) }
        requires last { AreEffects (world_by self.now (V.met verdicts.now)) last.old }
        ensures fixed { result ≡ denying.unless
            (spec.fixed (world_by self.now (V.met verdicts.now)) (option_node option.entry)) }
        ensures last { AreEffects (world_by self.now (V.met verdicts.now)) last.new }
    {
        self.uncovered_beside(option.place(), option.position(), last, verdicts)
    }

    /// Whether an option of a question may be chosen, as far as it goes, by what is kept of conditions: not where it is not shown,
    /// a GRAY_OUT_IF around it holds (GrayOutIf) or it is locked (Locked).
    pub fn option_changeable_by<C: Conditions>(
        &self,
        option: OptionView<'a>,
        conditions: &C,
    ) -> Result<(), Denial>
        requires { IsNodeOf self.now.forms.now (option_node option) }
        ensures { (stores : StoreMap)
            → Tells (C.holding conditions.now) (world self.now stores) (around (option_node option.entry))
            → result ≡ denying.unless
            (spec.fixed (world self.now stores) (option_node option.entry)) }
    {
        self.option_selectable(option, &mut Effects::none(), &ByConditions { conditions })
    }

    // Whether a statement forbids a change by itself.
    fn fixed_itself(&self, statement: Statement<'a>) -> Result<(), Denial>
        requires { IsNodeOf self.now.forms.now (statement_node statement) }
        ensures { result ≡ denying.unless
            (spec.fixed_itself (nodes_of self.now.forms.now) (statement_node statement.entry)) }
    {
        fixed_as_question(self.question(statement))
    }

    // Whether a statement may be changed, by conditions from anywhere.
    fn changeable_with<V: Verdicts<'a>>(
        &self,
        statement: Statement<'a>,
        verdicts: &V,
    ) -> Result<(), Denial>
        requires { IsNodeOf self.now.forms.now (statement_node statement) }
        ensures { result ≡ denying.unless
            (spec.fixed (world_by self.now (V.met verdicts.now)) (statement_node statement.entry)) }
    {
        self.uncovered_at(statement.place(), statement.position(), verdicts)?;
        self.fixed_itself(statement)
    }

    /// Whether a statement of the package may be changed: not where it is not seen, a GRAY_OUT_IF around it holds (GrayOutIf), it
    /// is locked (Locked), it has the flag READ_ONLY as a question (ReadOnly), or is a question without a field in a store, or a
    /// reference that leads to no form of this form set (Outside). The denial names the first of these that is so: the guard or
    /// the LOCKED, the outermost of several, or the question itself.
    pub fn changeable(&self, statement: Statement<'a>, stores: &Stores) -> Result<(), Denial>
        requires { IsNodeOf self.now.forms.now (statement_node statement) }
        ensures { result ≡ denying.unless
            (spec.fixed (world self.now stores.now) (statement_node statement.entry)) }
    {
        self.changeable_with(statement, &self.over(stores))
    }

    /// Whether a statement of the package may be changed, by what is kept of conditions.
    pub fn changeable_by<C: Conditions>(
        &self,
        statement: Statement<'a>,
        conditions: &C,
    ) -> Result<(), Denial>
        requires { IsNodeOf self.now.forms.now (statement_node statement) }
        ensures { DecidesBy (C.holding conditions.now) (world self.now)
            (Changeable statement.entry) result }
    {
        self.changeable_with(statement, &ByConditions { conditions })
    }

    // Whether a question may be changed, by conditions from anywhere.
    #[inline(always)]
    fn question_changeable_with<V: Verdicts<'a>>(
        &self,
        question: Question<'a>,
        verdicts: &V,
    ) -> Result<(), Denial>
        requires node { IsNodeOf self.now.forms.now (question_node question) }
        requires asked { question_view question
            ≡ asked (nodes_of self.now.forms.now) (question_node question) }
        ensures { result ≡ denying.unless
            (spec.fixed (world_by self.now (V.met verdicts.now)) (question_node question.entry)) }
    {
        self.uncovered_at(question.place(), question.statement().position(), verdicts)?;
        fixed_question(question)
    }

    /// Whether a question of the package may be changed, by what is kept of conditions: what `changeable_by` answers of its
    /// statement, with no search for the question.
    #[inline(always)]
    pub fn question_changeable_by<C: Conditions>(
        &self,
        question: Question<'a>,
        conditions: &C,
    ) -> Result<(), Denial>
        requires node { IsNodeOf self.now.forms.now (question_node question) }
        requires asked { question_view question
            ≡ asked (nodes_of self.now.forms.now) (question_node question) }
        ensures { (statement : Statement) → statement_node statement ≡ question_node question.entry
            → DecidesBy (C.holding conditions.now) (world self.now) (Changeable statement) result }
    {
        self.question_changeable_with(question, &ByConditions { conditions })
    }

    // Whether one of some options of the package may be chosen, or none is there, with the denials of the guards that were asked
    // last. The denial is that of the first of them by place.
    #[inline(never)]
    fn one_open<V: Verdicts<'a>>(
        &self,
        options: PlacedOptions<'_, 'a>,
        last: Effects,
        verdicts: &V,
    ) -> Result<(), Denial>
        requires nodes { AreNodesOf self.now.forms.now (placed_left options) }
        requires last { AreEffects (world_by self.now (V.met verdicts.now)) last }
        ensures { result ≡ denying.unless
            (spec.all_fixed (world_by self.now (V.met verdicts.now)) (placed_left options.entry)) }
    {
        let mut first = None;
        let mut last = last;
        let mut options = options;
        while let Some(option) = options.next() {
            match self.option_selectable(option, &mut last, verdicts) {
                Ok(()) => return Ok(()),
                Err(denial) => first = first.or(Some(denial)),
            }
        }
        match first {
            Some(denial) => Err(denial),
            None => Ok(()),
        }
    }

    /// Whether a question may be given a value of its options, by conditions from anywhere, with the denials of the guards
    /// that were asked last.
    pub(crate) fn option_open_with<V: Verdicts<'a>>(
        &self,
        question: Question<'a>,
        value: u64,
        last: Effects,
        verdicts: &V,
    ) -> Result<(), Denial>
        requires node { IsNodeOf self.now.forms.now (question_node question) }
        requires last { AreEffects (world_by self.now (V.met verdicts.now)) last }
        ensures { result ≡ denying.unless
            (spec.closed (world_by self.now (V.met verdicts.now))
            (question_node question.entry) value) }
    {
        if let Some(options) = self.questions.options_with(question, value) {
            return self.one_open(options, last, verdicts);
        }
        let mut first = None;
        let mut last = last;
        let mut options = self.forms.options_of(question.statement());
        while let Some(option) = options.next() {
            if option.op().value() == value {
                match self.option_selectable(option, &mut last, verdicts) {
                    Ok(()) => return Ok(()),
                    Err(denial) => first = first.or(Some(denial)),
                }
            }
        }
        match first {
            Some(denial) => Err(denial),
            None => Ok(()),
        }
    }

    /// Whether a question of the package may be given a value of its options: not where all options of this value are fixed. The
    /// denial is that of the first of them by place. Where no option has the value, nothing denies it.
    pub fn option_open(
        &self,
        question: Question<'a>,
        value: u64,
        stores: &Stores,
    ) -> Result<(), Denial>
        requires { IsNodeOf self.now.forms.now (question_node question) }
        ensures { result ≡ denying.unless
            (spec.closed (world self.now stores.now) (question_node question.entry) value) }
    {
        self.option_open_with(question, value, Effects::none(), &self.over(stores))
    }

    /// Whether a question of the package may be given a value of its options, by what is kept of conditions.
    pub fn option_open_by<C: Conditions>(
        &self,
        question: Question<'a>,
        value: u64,
        conditions: &C,
    ) -> Result<(), Denial>
        requires { IsNodeOf self.now.forms.now (question_node question) }
        ensures { DecidesBy (C.holding conditions.now) (world self.now)
            (OptionOpen question.entry value) result }
    {
        self.option_open_with(
            question,
            value,
            Effects::none(),
            &ByConditions { conditions },
        )
    }
}

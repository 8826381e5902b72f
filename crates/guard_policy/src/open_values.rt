//! Which values of its options a question may be given.

ghost use Rattle.std.specs.Prelude.{◌≡◌, ◌==◌, ◌&&◌, ◌||◌, ℕ, None, take};
ghost use Rattle.std.specs.List.{list_any};
ghost use Rattle.ifr_nodes.specs.Nodes.{options};
ghost use Rattle.ifr_nodes.specs.code.Checked.{IsNodeOf};
ghost use Rattle.ifr_opcodes.specs.Forest.{Node};
ghost use Rattle.ifr_scopes.specs.code.Parts.{option_node};
ghost use Rattle.hii_values.specs.code.ItemsLeft.{items_left};
ghost use Rattle.hii_values.specs.code.MetValues.{is_met, is_sought};
ghost use Rattle.hii_questions.specs.code.Views.{question_node};
ghost use Rattle.hii_varstore.specs.Stores.{StoreMap};
ghost use Rattle.guard_policy.specs.Policy.{fixed};
ghost use Rattle.guard_policy.specs.code.Effects.{AreEffects};
ghost use Rattle.guard_policy.specs.code.KeptConditions.{Tells};
ghost use Rattle.guard_policy.specs.code.OpenValues.{opens};
ghost use Rattle.guard_policy.specs.code.Surroundings.{IsAroundNode};
ghost use Rattle.guard_policy.specs.code.Views.{world, world_by};
ghost use Rattle.guard_policy.specs.declared.support.Decision.TheVariants.{OptionOpen};
ghost use Rattle.guard_policy.specs.laws.Support as support;

use crate::conditions::{ByConditions, Conditions, Verdicts};
use crate::effects::Effects;
use crate::policy::Policy;
use hii_questions::{Items, MetValues, Question};
use ifr_scopes::{Around, OptionView};

impl<'a, 's> Policy<'a, 's> {
    // Meets the value of an option that may be chosen, with the denials of the guards that were asked last. Where the value is not
    // sought, or was met, no guard is asked.
    fn meet_open<V: Verdicts<'a>>(
        &self,
        option: OptionView<'a>,
        met: &mut MetValues,
        last: &mut Effects,
        verdicts: &V,
    )
        requires node { IsNodeOf self.now.forms.now (option_node option) }
        requires last { AreEffects (world_by self.now (V.met verdicts.now)) last.old }
        ensures sought { (v : ℕ) → is_sought met.new v ≡ is_sought met.old v }
        ensures met { (v : ℕ) → is_met met.new v ≡ (is_met met.old v || (is_sought met.old v
            && opens (world_by self.now (V.met verdicts.now)) v (option_node option.entry))) }
        ensures last { AreEffects (world_by self.now (V.met verdicts.now)) last.new }
    {
        let value = option.op().value();
        if met.lacks(value) && self.option_selectable(option, last, verdicts).is_ok() {
            met.meet(value);
        }
    }

    // Of some values those are met of which an option may be chosen, with the denials of the guards that were asked last.
    fn open_values_with<V: Verdicts<'a>>(
        &self,
        question: Question<'a>,
        values: Items<'_>,
        last: Effects,
        verdicts: &V,
    ) -> MetValues
        requires node { IsNodeOf self.now.forms.now (question_node question) }
        requires last { AreEffects (world_by self.now (V.met verdicts.now)) last }
        ensures sought { (v : ℕ) → is_sought result v
            ≡ list_any (λ item. item == v) (take 255 (items_left values.entry)) }
        ensures met { (v : ℕ) → is_met result v ≡ (is_sought result v
            && list_any (opens (world_by self.now (V.met verdicts.now)) v)
            (options (question_node question.entry))) }
    {
        let mut met = MetValues::of(values);
        let mut last = last;
        let mut options = self.forms.options_of(question.statement());
        while let Some(option) = options.next() {
            self.meet_open(option, &mut met, &mut last, verdicts);
        }
        met
    }

    /// Which of some values of its options a question may be given that may be changed, by what is kept of conditions: of the first
    /// 255 of them those are met of which an option may be chosen, found in one walk over the options. Of each other
    /// `option_open_within_by` tells what denies it.
    pub fn open_values_by<C: Conditions>(
        &self,
        question: Question<'a>,
        values: Items<'_>,
        around: Around<'s, 'a>,
        conditions: &C,
    ) -> MetValues
        requires node { IsNodeOf self.now.forms.now (question_node question) }
        requires around { IsAroundNode self.now.forms.now (question_node question) around }
        requires free { fixed (world_by self.now (λ (n : Node). C.holding conditions.now n.place))
            (question_node question) ≡ None }
        ensures sought { (v : ℕ) → is_sought result v
            ≡ list_any (λ item. item == v) (take 255 (items_left values.entry)) }
        ensures met { (v : ℕ) (stores : StoreMap)
            → Tells (C.holding conditions.now) (world self.now stores)
            (support.conditions (world self.now stores) (OptionOpen question.entry v))
            → is_met result v ≡ (is_sought result v
            && list_any (opens (world self.now stores) v) (options (question_node question.entry))) }
    {
        let free = Effects::free(around.innermost());
        self.open_values_with(question, values, free, &ByConditions { conditions })
    }
}

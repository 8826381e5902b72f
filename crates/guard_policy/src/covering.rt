//! What guards and LOCKED do to what they stand around.

ghost use Rattle.std.specs.Prelude.{◌≡◌, true, None, IfSome, option_map};
ghost use Rattle.std.specs.List.{find, list_any};
ghost use Rattle.ifr_opcodes.specs.Forest.{Node};
ghost use Rattle.ifr_nodes.specs.Guards.{guards};
ghost use Rattle.ifr_scopes.specs.code.AroundViews.{around_guards, around_lock};
ghost use Rattle.ifr_nodes.specs.code.Checked.{IsNodeOf};
ghost use Rattle.ifr_index.specs.code.Index.{is_indexed};
ghost use Rattle.ifr_scopes.specs.code.Lists.{guard_node};
ghost use Rattle.ifr_scopes.specs.code.LocksLeft.{lock_node};
ghost use Rattle.ifr_scopes.specs.code.NoSubmitsLeft.{no_submit_node};
ghost use Rattle.hii_values.specs.declared.denial.DenialKind.TheVariants.{GrayOutIf, Locked};
ghost use Rattle.guard_policy.specs.Policy as spec;
ghost use Rattle.guard_policy.specs.code.Answers as denying;
ghost use Rattle.guard_policy.specs.code.Effects.{AreEffects};
ghost use Rattle.guard_policy.specs.code.Views.{world_by};

use crate::conditions::Verdicts;
use crate::denial::Denial;
use crate::effects::Effects;
use crate::policy::Policy;
use hii_questions::DenialKind;
use ifr_opcodes::DISABLE_IF;
use ifr_scopes::{Around, LockView, NoSubmit};

/// What forbids that something is changed that is not hidden: what grays it out, else the LOCKED.
pub(crate) fn unless_grayed_out(
    grays_out: Option<Denial>,
    lock: Option<LockView<'_>>,
) -> Result<(), Denial>
    ensures { result ≡ denying.unless (spec.or_else grays_out
        (option_map (spec.denied_by Locked) (option_map lock_node lock.entry))) }
{
    if let Some(denial) = grays_out {
        return Err(denial);
    }
    match lock {
        Some(lock) => Err(Denial::by(DenialKind::Locked, lock.place())),
        None => Ok(()),
    }
}

// What forbids that something is changed: what hides it, else what grays it out, else the LOCKED.
fn unless_denied(effects: Effects, lock: Option<LockView<'_>>) -> Result<(), Denial>
    ensures { result ≡ denying.unless (spec.or_else effects.hides (spec.or_else effects.grays_out
        (option_map (spec.denied_by Locked) (option_map lock_node lock.entry)))) }
{
    if let Some(denial) = effects.hides {
        return Err(denial);
    }
    unless_grayed_out(effects.grays_out, lock)
}

impl<'a, 's> Policy<'a, 's> {
    /// Whether a DISABLE_IF around a condition that denies a submission was removed.
    pub(crate) fn is_removed(&self, nosubmit: &NoSubmit<'_, 'a>) -> bool
        ensures { result ≡ list_any (spec.is_removed self.now.removed.now)
            (guards (no_submit_node nosubmit.now)) }
    {
        let mut guards = nosubmit.guards;
        while let Some(guard) = guards.next() {
            if guard.code() == DISABLE_IF && self.removed(guard.place()) {
                return true;
            }
        }
        false
    }

    /// Whether the form, statement or option at a place is seen, which is looked for first at this position of the index.
    pub(crate) fn seen_at<V: Verdicts<'a>>(
        &self,
        place: u32,
        position: u32,
        verdicts: &V,
    ) -> Result<(), Denial>
        ensures { (n : Node) → IsNodeOf self.now.forms.now n → is_indexed n ≡ true
            → n.place ≡ place → result
            ≡ denying.unless (spec.hidden (world_by self.now (V.met verdicts.now)) n) }
    {
        match self.hidden(self.forms.around_at(place, position), verdicts) {
            Some(denial) => Err(denial),
            None => Ok(()),
        }
    }

    /// The same beside others, with the denials of the guards that were asked last.
    pub(crate) fn seen_beside<V: Verdicts<'a>>(
        &self,
        place: u32,
        position: u32,
        last: &mut Effects,
        verdicts: &V,
    ) -> Result<(), Denial>
        requires { AreEffects (world_by self.now (V.met verdicts.now)) last.old }
        ensures seen { (n : Node) → IsNodeOf self.now.forms.now n → is_indexed n ≡ true
            → n.place ≡ place → result
            ≡ denying.unless (spec.hidden (world_by self.now (V.met verdicts.now)) n) }
        ensures last { AreEffects (world_by self.now (V.met verdicts.now)) last.new }
    {
        let around = self.forms.around_at(place, position);
        self.effects_beside(around, last, verdicts);
        match last.hides {
            Some(denial) => Err(denial),
            None => Ok(()),
        }
    }

    // Whether none of the guards around something denies anything, as is mostly so.
    #[inline(always)]
    fn deny_nothing<V: Verdicts<'a>>(&self, around: Around<'_, 'a>, verdicts: &V) -> bool
        ensures hides { result ≡ true → spec.hidden_among
            (world_by self.now (V.met verdicts.now)) (around_guards around.entry) ≡ None }
        ensures grays_out { result ≡ true → option_map (spec.denied_by GrayOutIf)
            (find (spec.grays_out (world_by self.now (V.met verdicts.now)))
            (around_guards around.entry)) ≡ None }
    {
        let mut guards = around.guards();
        while let Some(guard) = guards.next() {
            if self.hides(guard, verdicts) || self.grays_out(guard, verdicts) {
                return false;
            }
        }
        true
    }

    /// What of that around which this stands may not be changed.
    #[inline(always)]
    pub(crate) fn unless_covered<V: Verdicts<'a>>(
        &self,
        around: Around<'_, 'a>,
        verdicts: &V,
    ) -> Result<(), Denial>
        ensures { result ≡ denying.unless
            (spec.covered_by (world_by self.now (V.met verdicts.now))
            (around_guards around.entry) (around_lock around.entry)) }
    {
        if self.deny_nothing(around, verdicts) {
            return unless_grayed_out(None, around.lock());
        }
        let effects = self.effects(around, verdicts);
        unless_denied(effects, around.lock())
    }

    /// Whether nothing around the form, statement or option at a place lets it not be changed. It is looked for first at this
    /// position of the index.
    pub(crate) fn uncovered_at<V: Verdicts<'a>>(
        &self,
        place: u32,
        position: u32,
        verdicts: &V,
    ) -> Result<(), Denial>
        ensures { (n : Node) → IsNodeOf self.now.forms.now n → is_indexed n ≡ true
            → n.place ≡ place → result
            ≡ denying.unless (spec.covered (world_by self.now (V.met verdicts.now)) n) }
    {
        self.unless_covered(self.forms.around_at(place, position), verdicts)
    }

    /// The same beside others, with the denials of the guards that were asked last.
    pub(crate) fn uncovered_beside<V: Verdicts<'a>>(
        &self,
        place: u32,
        position: u32,
        last: &mut Effects,
        verdicts: &V,
    ) -> Result<(), Denial>
        requires { AreEffects (world_by self.now (V.met verdicts.now)) last.old }
        ensures uncovered { (n : Node) → IsNodeOf self.now.forms.now n → is_indexed n ≡ true
            → n.place ≡ place → result
            ≡ denying.unless (spec.covered (world_by self.now (V.met verdicts.now)) n) }
        ensures last { AreEffects (world_by self.now (V.met verdicts.now)) last.new }
    {
        let around = self.forms.around_at(place, position);
        self.effects_beside(around, last, verdicts);
        unless_denied(*last, around.lock())
    }
}

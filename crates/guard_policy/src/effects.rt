//! What guards deny of what they stand around.

ghost use Rattle.std.specs.Prelude.{◌≡◌, None, option_map};
ghost use Rattle.std.specs.List.{find};
ghost use Rattle.ifr_scopes.specs.code.AroundViews.{around_guards, around_innermost, around_package};
ghost use Rattle.ifr_scopes.specs.code.Lists.{guard_node};
ghost use Rattle.hii_values.specs.declared.denial.DenialKind.TheVariants.{GrayOutIf};
ghost use Rattle.guard_policy.specs.Policy as spec;
ghost use Rattle.guard_policy.specs.World.{World};
ghost use Rattle.guard_policy.specs.code.Effects.{AreEffects};
ghost use Rattle.guard_policy.specs.code.Views.{world_by};

use crate::conditions::Verdicts;
use crate::denial::Denial;
use crate::policy::Policy;
use hii_questions::DenialKind;
use ifr_opcodes::{DISABLE_IF, GRAY_OUT_IF, SUPPRESS_IF};
use ifr_scopes::{AnyCondition, Around, Guard};

/// The denials of a guard and of those around it: that of the outermost that hides, and that of the outermost that grays
/// out. They are handed on from one statement or option to the next, so that guards around both are asked once.
#[derive(Clone, Copy)]
pub struct Effects {
    // The number of the guard; where there is none, nothing is denied.
    pub(crate) guard: Option<u32>,
    pub(crate) hides: Option<Denial>,
    pub(crate) grays_out: Option<Denial>,
}

impl Effects {
    /// Of no guard.
    pub fn none() -> Effects
        ensures value { result ≡ record { guard = None; hides = None; grays_out = None } }
        ensures effects { (w : World) → AreEffects w result }
    {
        Effects::free(None)
    }

    /// Of the guard of a number, where neither it nor one around it denies anything.
    pub(crate) fn free(guard: Option<u32>) -> Effects
        ensures { result ≡ record { guard = guard; hides = None; grays_out = None } }
    {
        Effects {
            guard,
            hides: None,
            grays_out: None,
        }
    }
}

impl<'a, 's> Policy<'a, 's> {
    // Whether a guard hides.
    #[inline(always)]
    pub(crate) fn hides<V: Verdicts<'a>>(&self, guard: Guard<'a>, verdicts: &V) -> bool
        ensures { result ≡ spec.hides (world_by self.now (V.met verdicts.now))
            (guard_node guard.entry) }
    {
        match guard.code() {
            DISABLE_IF => self.removed(guard.place()),
            SUPPRESS_IF => verdicts.is_met(AnyCondition::Guard(guard)),
            _ => false,
        }
    }

    // Whether a guard grays out.
    #[inline(always)]
    pub(crate) fn grays_out<V: Verdicts<'a>>(&self, guard: Guard<'a>, verdicts: &V) -> bool
        ensures { result ≡ spec.grays_out (world_by self.now (V.met verdicts.now))
            (guard_node guard.entry) }
    {
        match guard.code() {
            GRAY_OUT_IF => verdicts.is_met(AnyCondition::Guard(guard)),
            _ => false,
        }
    }

    // The denial of the outermost guard that hides.
    pub(crate) fn hidden<V: Verdicts<'a>>(
        &self,
        around: Around<'_, 'a>,
        verdicts: &V,
    ) -> Option<Denial>
        ensures { result ≡ spec.hidden_among (world_by self.now (V.met verdicts.now))
            (around_guards around.entry) }
    {
        let mut hidden = None;
        let mut guards = around.guards();
        while let Some(guard) = guards.next() {
            if self.hides(guard, verdicts) {
                hidden = Some(Denial::hiding(guard));
            }
        }
        hidden
    }

    /// The denials of the guards around something.
    #[inline(always)]
    pub(crate) fn effects<V: Verdicts<'a>>(&self, around: Around<'_, 'a>, verdicts: &V) -> Effects
        ensures guard { result.guard ≡ around_innermost around.entry }
        ensures hides { result.hides ≡ spec.hidden_among
            (world_by self.now (V.met verdicts.now)) (around_guards around.entry) }
        ensures grays_out { result.grays_out ≡ option_map (spec.denied_by GrayOutIf)
            (find (spec.grays_out (world_by self.now (V.met verdicts.now)))
            (around_guards around.entry)) }
    {
        let mut hides = None;
        let mut grays_out = None;
        let mut guards = around.guards();
        while let Some(guard) = guards.next() {
            if self.hides(guard, verdicts) {
                hides = Some(Denial::hiding(guard));
            } else if self.grays_out(guard, verdicts) {
                grays_out = Some(Denial::by(DenialKind::GrayOutIf, guard.place()));
            }
        }
        Effects {
            guard: around.innermost(),
            hides,
            grays_out,
        }
    }

    // The denials of the guards around something. Beside others it is seldom asked.
    #[inline(never)]
    fn effects_anew<V: Verdicts<'a>>(&self, around: Around<'_, 'a>, verdicts: &V) -> Effects
        ensures guard { result.guard ≡ around_innermost around.entry }
        ensures hides { result.hides ≡ spec.hidden_among
            (world_by self.now (V.met verdicts.now)) (around_guards around.entry) }
        ensures grays_out { result.grays_out ≡ option_map (spec.denied_by GrayOutIf)
            (find (spec.grays_out (world_by self.now (V.met verdicts.now)))
            (around_guards around.entry)) }
    {
        self.effects(around, verdicts)
    }

    /// The denials of the guards around something take the place of those that were asked last. The same guards are not asked
    /// again.
    #[inline(always)]
    pub(crate) fn effects_beside<V: Verdicts<'a>>(
        &self,
        around: Around<'_, 'a>,
        last: &mut Effects,
        verdicts: &V,
    )
        requires package { around_package around ≡ self.now.forms.now }
        requires last { AreEffects (world_by self.now (V.met verdicts.now)) last.old }
        ensures hides { last.new.hides ≡ spec.hidden_among
            (world_by self.now (V.met verdicts.now)) (around_guards around.entry) }
        ensures grays_out { last.new.grays_out ≡ option_map (spec.denied_by GrayOutIf)
            (find (spec.grays_out (world_by self.now (V.met verdicts.now)))
            (around_guards around.entry)) }
        ensures last { AreEffects (world_by self.now (V.met verdicts.now)) last.new }
    {
        if around.innermost() != last.guard {
            *last = self.effects_anew(around, verdicts);
        }
    }
}

//! Of what questions warn.

ghost use Rattle.std.specs.Prelude.{◌≡◌};
ghost use Rattle.ifr_scopes.specs.code.Parts.{condition_node};
ghost use Rattle.guard_policy.specs.Warned.{warning_of};

use crate::policy::Policy;
use hii_varstore::Stores;
use ifr_scopes::{ConditionView, ConditionsOf};

/// A WARNING_IF whose condition holds: its place, in bytes from the header of the forms package, and the string id of its text
/// (UEFI 2.8, 33.3.8.3, EFI_IFR_WARNING_IF).
#[derive(Clone, Copy, Debug, PartialEq, Eq)]
pub struct Warning {
    pub place: u32,
    pub message: u16,
}

impl Warning {
    // Of what a WARNING_IF warns.
    pub(crate) fn of(condition: ConditionView<'_>) -> Warning
        ensures { result ≡ warning_of (condition_node condition.entry) }
    {
        Warning {
            place: condition.place(),
            message: condition.op().message(),
        }
    }
}

/// The warnings of a question that are left, by place.
#[derive(Drop)]
pub struct Warnings<'a, 's> {
    pub(crate) policy: Policy<'a, 's>,
    pub(crate) stores: &'s Stores,
    pub(crate) conditions: ConditionsOf<'s, 'a>,
}

impl<'a, 's> Iterator for Warnings<'a, 's> {
    ghost use Rattle.std.specs.Iterator.{YieldsFirstBy, item_count};
    ghost use Rattle.guard_policy.specs.code.WarningsLeft.{warnings_left};

    type Item = Warning;

    ghost next_gives = { YieldsFirstBy (λ warning. warning) warnings_left };

    ghost remaining = { item_count warnings_left };

    fn next(&mut self) -> Option<Warning> {
        while let Some(condition) = self.conditions.next() {
            if self.policy.condition_holds(condition, self.stores) {
                return Some(Warning::of(condition));
            }
        }
        None
    }
}

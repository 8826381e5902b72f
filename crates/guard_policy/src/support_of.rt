//! The questions on which decisions depend.

ghost use Rattle.std.specs.Prelude.{◌≡◌};
ghost use Rattle.std.specs.Iterator.{YieldsFirstBy};
ghost use Rattle.ifr_scopes.specs.code.AnyConditions.{any_condition_node};
ghost use Rattle.ifr_scopes.specs.code.DependenceLeft.{dependence_left};
ghost use Rattle.ifr_nodes.specs.Nodes.{nodes_of};
ghost use Rattle.hii_varstore.specs.Stores.{StoreMap};
ghost use Rattle.guard_policy.specs.Conditions.{condition_ids};
ghost use Rattle.guard_policy.specs.laws.Support.{IsSubjectOf, support, support_at};
ghost use Rattle.guard_policy.specs.code.SupportLeft.{ids_left, support_at_left, support_left};
ghost use Rattle.guard_policy.specs.code.Views.{world};

use crate::decision_conditions::DecisionConditions;
use crate::policy::Policy;
use crate::support::Decision;
use ifr_scopes::{AnyCondition, Dependence, Forms};

/// The ids of the questions on whose answers a decision depends, those that are left: condition by condition.
#[derive(Drop)]
pub struct SupportOf<'a, 's> {
    forms: &'s Forms<'a>,
    conditions: DecisionConditions<'a, 's>,
    ids: Option<Dependence<'s, 'a>>,
}

/// The ids of the questions on whose answers one condition depends, those that are left.
#[derive(Drop)]
pub struct SupportAt<'a, 's> {
    ids: Option<Dependence<'s, 'a>>,
}

// The ids of the questions on whose answers a condition depends.
fn ids_of<'a, 's>(condition: AnyCondition<'a>, forms: &'s Forms<'a>) -> Dependence<'s, 'a>
    ensures { dependence_left result
        ≡ condition_ids (nodes_of forms.now) (any_condition_node condition.entry) }
{
    forms.dependence(condition.condition(), condition.this())
}

// The next of the ids behind a condition, if there is one.
fn next_id(ids: &mut Option<Dependence<'_, '_>>) -> Option<u16>
    ensures { YieldsFirstBy (λ id. id) ids_left ids.old result ids.new }
{
    match ids {
        Some(ids) => ids.next(),
        None => None,
    }
}

impl<'a, 's> Policy<'a, 's> {
    /// The ids of the questions on whose answers a decision depends. An id may come more than once. It takes no memory.
    pub fn support_of(&self, decision: Decision<'a>) -> SupportOf<'a, 's>
        requires { IsSubjectOf self.now.forms.now decision }
        ensures { (stores : StoreMap) → support_left result
            ≡ support (world self.now stores) decision.entry }
    {
        SupportOf {
            forms: self.forms,
            conditions: DecisionConditions::of(*self, decision),
            ids: None,
        }
    }

    /// The ids of the questions on whose answers the condition of the opcode at a place depends, in bytes from the header of
    /// the forms package; none where no condition stands. An id may come more than once. It takes no memory.
    pub fn support_at(&self, place: u32) -> SupportAt<'a, 's>
        ensures { support_at_left result ≡ support_at (nodes_of self.now.forms.now) place }
    {
        match self.forms.condition_at(place, 0) {
            Some(condition) => SupportAt {
                ids: Some(ids_of(condition, self.forms)),
            },
            None => SupportAt { ids: None },
        }
    }
}

impl<'a, 's> Iterator for SupportAt<'a, 's> {
    ghost use Rattle.std.specs.Iterator.{item_count};

    type Item = u16;

    ghost next_gives = { YieldsFirstBy (λ id. id) support_at_left };

    ghost remaining = { item_count support_at_left };

    fn next(&mut self) -> Option<u16> {
        next_id(&mut self.ids)
    }
}

impl<'a, 's> Iterator for SupportOf<'a, 's> {
    ghost use Rattle.std.specs.Iterator.{item_count};

    type Item = u16;

    ghost next_gives = { YieldsFirstBy (λ id. id) support_left };

    ghost remaining = { item_count support_left };

    fn next(&mut self) -> Option<u16> {
        loop {
            if let Some(id) = next_id(&mut self.ids) {
                return Some(id);
            }
            let condition = self.conditions.step()?;
            self.ids = Some(ids_of(condition, self.forms));
        }
    }
}

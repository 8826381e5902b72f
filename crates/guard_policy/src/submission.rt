//! The conditions of a submission.

ghost use Rattle.std.specs.Iterator.{YieldsFirstBy};
ghost use Rattle.ifr_scopes.specs.code.Parts.{condition_node};
ghost use Rattle.guard_policy.specs.code.AskedLeft.{submission_left};

use crate::policy::Policy;
use ifr_scopes::{ConditionView, NoSubmits};

/// The conditions on which it depends whether the stores may be submitted, those that are left: the NO_SUBMIT_IFs, but those in
/// the scope of a removed DISABLE_IF.
#[derive(Drop)]
pub(crate) struct Submission<'a, 's> {
    pub(crate) policy: Policy<'a, 's>,
    pub(crate) conditions: NoSubmits<'s, 'a>,
}

impl<'a, 's> Submission<'a, 's> {
    /// Goes to the next.
    pub(crate) fn step(&mut self) -> Option<ConditionView<'a>>
        ensures { YieldsFirstBy condition_node submission_left self.old result self.new }
    {
        while let Some(nosubmit) = self.conditions.next() {
            if !self.policy.is_removed(&nosubmit) {
                return Some(nosubmit.condition);
            }
        }
        None
    }
}

//! The conditions that deny a submission, of all questions.

ghost use Rattle.std.specs.Prelude.{◌≡◌, reverse};
ghost use Rattle.ifr_nodes.specs.Checked.{IsChecked};
ghost use Rattle.ifr_nodes.specs.code.Checked.{IsChecked-prop, nodes_prop};
ghost use Rattle.ifr_nodes.specs.Guards.{guards as guards_of_node};
ghost use Rattle.ifr_scopes.specs.code.Lists.{outward_left};
ghost use Rattle.ifr_scopes.specs.code.Parts.{condition_node};
ghost use Rattle.ifr_index.specs.code.Tables.{AreConditionEntries, AreConditionEntries-prop, IsGuardTable, IsGuardTable-prop};

use crate::condition_view::ConditionView;
use crate::guards_outward::GuardsOutward;
use ifr_index::{ConditionEntry, GuardEntry};
use ifr_opcodes::NO_SUBMIT_IF;

/// A condition that denies a submission while it holds, and the guards around it, which are those of its question (UEFI
/// 2.8, 33.3.8.3, EFI_IFR_NO_SUBMIT_IF).
#[derive(Drop)]
pub struct NoSubmit<'s, 'a> {
    pub condition: ConditionView<'a>,
    /// The guards, the innermost first.
    pub guards: GuardsOutward<'s, 'a>,
    pub ghost around: { outward_left guards ≡ reverse (guards_of_node (condition_node condition)) } by { nodes_prop (outward_left guards) (reverse (guards_of_node (condition_node condition))) },
}

/// The NO_SUBMIT_IFs of a form set that are left, by place.
#[derive(Drop)]
pub struct NoSubmits<'s, 'a> {
    pub(crate) ifr: &'a [u8],
    pub(crate) guards: &'s [GuardEntry],
    pub(crate) kept: &'s [ConditionEntry],
    pub ghost checked: { IsChecked ifr.now } by { IsChecked-prop ifr.now },
    pub ghost table: { IsGuardTable ifr.now guards.now } by { IsGuardTable-prop ifr.now guards.now },
    pub ghost conditions: { AreConditionEntries ifr.now kept.now } by { AreConditionEntries-prop ifr.now kept.now },
}

impl<'s, 'a> Iterator for NoSubmits<'s, 'a> {
    ghost use Rattle.std.specs.Iterator.{YieldsFirstBy, item_count};
    ghost use Rattle.ifr_scopes.specs.code.NoSubmitsLeft.{no_submit_node, no_submits_left};

    type Item = NoSubmit<'s, 'a>;

    ghost next_gives = { YieldsFirstBy no_submit_node no_submits_left };

    ghost remaining = { item_count no_submits_left };

    fn next(&mut self) -> Option<NoSubmit<'s, 'a>> {
        while let Some((first, kept)) = self.kept.split_first() {
            self.kept = kept;
            if first.code == NO_SUBMIT_IF {
                return Some(NoSubmit {
                    condition: ConditionView::kept(self.ifr, *first),
                    guards: GuardsOutward {
                        ifr: self.ifr,
                        guards: self.guards,
                        next: first.guard,
                    },
                });
            }
        }
        None
    }
}

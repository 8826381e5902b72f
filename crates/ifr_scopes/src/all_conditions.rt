//! All conditions of questions of a package.

ghost use Rattle.ifr_nodes.specs.Checked.{IsChecked};
ghost use Rattle.ifr_nodes.specs.code.Checked.{IsChecked-prop};
ghost use Rattle.ifr_index.specs.code.Tables.{AreConditionEntries, AreConditionEntries-prop};

use crate::condition_view::ConditionView;
use ifr_index::ConditionEntry;

/// The conditions of questions that are left of all of a package, by place.
#[derive(Drop)]
pub struct AllConditions<'s, 'a> {
    pub(crate) ifr: &'a [u8],
    pub(crate) kept: &'s [ConditionEntry],
    pub ghost checked: { IsChecked ifr.now } by { IsChecked-prop ifr.now },
    pub ghost conditions: { AreConditionEntries ifr.now kept.now } by { AreConditionEntries-prop ifr.now kept.now },
}

impl<'s, 'a> Iterator for AllConditions<'s, 'a> {
    ghost use Rattle.std.specs.Iterator.{YieldsFirstBy, item_count};
    ghost use Rattle.ifr_scopes.specs.code.AllConditionsLeft.{all_conditions_left};
    ghost use Rattle.ifr_scopes.specs.code.Parts.{condition_node};

    type Item = ConditionView<'a>;

    ghost next_gives = { YieldsFirstBy condition_node all_conditions_left };

    ghost remaining = { item_count all_conditions_left };

    fn next(&mut self) -> Option<ConditionView<'a>> {
        match self.kept {
            [first, kept @ ..] => {
                let view = ConditionView::kept(self.ifr, *first);
                self.kept = kept;
                Some(view)
            }
            [] => None,
        }
    }
}

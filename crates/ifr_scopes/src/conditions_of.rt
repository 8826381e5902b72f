//! The conditions of one question, found in the index.

ghost use Rattle.ifr_nodes.specs.Checked.{IsChecked};
ghost use Rattle.ifr_nodes.specs.code.Checked.{IsChecked-prop};
ghost use Rattle.ifr_index.specs.code.Tables.{AreConditionEntries, AreConditionEntries-prop};

use crate::condition_view::ConditionView;
use ifr_index::ConditionEntry;

/// The conditions of a number that are left of a question, by place.
#[derive(Drop)]
pub struct ConditionsOf<'s, 'a> {
    pub(crate) ifr: &'a [u8],
    // First come the conditions that are left of the question, then those of others.
    pub(crate) kept: &'s [ConditionEntry],
    // The place of the question.
    pub(crate) question: u32,
    pub(crate) code: u8,
    pub ghost checked: { IsChecked ifr.now } by { IsChecked-prop ifr.now },
    pub ghost conditions: { AreConditionEntries ifr.now kept.now } by { AreConditionEntries-prop ifr.now kept.now },
}

impl<'s, 'a> ConditionsOf<'s, 'a> {
    ghost use Rattle.std.specs.Prelude.{◌≡◌, ◌↔◌, [], IsTrue};
    ghost use Rattle.ifr_scopes.specs.code.ConditionsLeft.{conditions_of_left, entries_left};

    /// Whether the question has no conditions that are left, of any number.
    #[inline(always)]
    pub fn is_done(&self) -> bool
        ensures exactly { IsTrue result ↔ (entries_left self.now ≡ []) }
        ensures none { IsTrue result → conditions_of_left self.now ≡ [] }
    {
        match self.kept.split_first() {
            Some((first, _)) => first.question != self.question,
            None => true,
        }
    }
}

impl<'s, 'a> Iterator for ConditionsOf<'s, 'a> {
    ghost use Rattle.std.specs.Iterator.{YieldsFirstBy, item_count};
    ghost use Rattle.ifr_scopes.specs.code.ConditionsLeft.{conditions_of_left};
    ghost use Rattle.ifr_scopes.specs.code.Parts.{condition_node};

    type Item = ConditionView<'a>;

    ghost next_gives = { YieldsFirstBy condition_node conditions_of_left };

    ghost remaining = { item_count conditions_of_left };

    #[inline(always)]
    fn next(&mut self) -> Option<ConditionView<'a>> {
        while let Some((first, kept)) = self.kept.split_first() {
            if first.question != self.question {
                return None;
            }
            self.kept = kept;
            if first.code == self.code {
                return Some(ConditionView::kept(self.ifr, *first));
            }
        }
        None
    }
}

//! The options of one question, found in the index.

ghost use Rattle.ifr_nodes.specs.Checked.{IsChecked};
ghost use Rattle.ifr_nodes.specs.code.Checked.{IsChecked-prop};
ghost use Rattle.ifr_index.specs.code.Tables.{AreEntries, AreEntries-prop};

use crate::option_view::OptionView;
use ifr_index::Entry;
use ifr_nodes::node_at;
use ifr_opcodes::ONE_OF_OPTION;

/// The options that are left of a question, by place.
#[derive(Drop)]
pub struct OptionsOf<'s, 'a> {
    pub(crate) ifr: &'a [u8],
    // First come the options that are left, then what is no option.
    pub(crate) kept: &'s [Entry],
    // How many stand before these entries.
    pub(crate) position: u32,
    pub ghost checked: { IsChecked ifr.now } by { IsChecked-prop ifr.now },
    pub ghost entries: { AreEntries ifr.now kept.now } by { AreEntries-prop ifr.now kept.now },
}

impl<'s, 'a> Iterator for OptionsOf<'s, 'a> {
    ghost use Rattle.std.specs.Iterator.{YieldsFirstBy, item_count};
    ghost use Rattle.ifr_scopes.specs.code.OptionsLeft.{options_of_left};
    ghost use Rattle.ifr_scopes.specs.code.Parts.{option_node};

    type Item = OptionView<'a>;

    ghost next_gives = { YieldsFirstBy option_node options_of_left };

    ghost remaining = { item_count options_of_left };

    fn next(&mut self) -> Option<OptionView<'a>> {
        let (first, kept) = self.kept.split_first()?;
        if first.code != ONE_OF_OPTION {
            return None;
        }
        let position = self.position;
        self.kept = kept;
        self.position = position.wrapping_add(1);
        Some(OptionView {
            node: node_at(self.ifr, first.place),
            position,
        })
    }
}

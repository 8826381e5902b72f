//! The statements of a form that give a default (UEFI 2.8, 33.2.5.8 Defaults), found in the index.

ghost use Rattle.ifr_nodes.specs.Checked.{IsChecked};
ghost use Rattle.ifr_nodes.specs.code.Checked.{IsChecked-prop};
ghost use Rattle.ifr_index.specs.code.Giving.{AreGiving, AreGiving-prop};
ghost use Rattle.ifr_index.specs.code.Tables.{AreEntries, AreEntries-prop};

use crate::statement::Statement;
use ifr_index::Entry;
use ifr_nodes::node_at;
use ifr_opcodes::FORM;

/// The statements that are left of a form, by place, that give a default: a DEFAULT or a flagged option stands in their scope,
/// or their own flags give one.
#[derive(Drop)]
pub struct GivingStatements<'s, 'a> {
    pub(crate) ifr: &'a [u8],
    // First comes what is left of the form, then the next form and what is behind it.
    pub(crate) kept: &'s [Entry],
    // How many stand before these entries.
    pub(crate) position: u32,
    // The places of the statements among these entries that give a default.
    pub(crate) places: &'s [u32],
    pub ghost checked: { IsChecked ifr.now } by { IsChecked-prop ifr.now },
    pub ghost entries: { AreEntries ifr.now kept.now } by { AreEntries-prop ifr.now kept.now },
    pub ghost giving: { AreGiving ifr.now kept.now places.now } by { AreGiving-prop ifr.now kept.now places.now },
}

impl<'s, 'a> Iterator for GivingStatements<'s, 'a> {
    ghost use Rattle.std.specs.Iterator.{YieldsFirstBy, item_count};
    ghost use Rattle.ifr_scopes.specs.code.GivingLeft.{giving_left};
    ghost use Rattle.ifr_scopes.specs.code.Lists.{statement_node};

    type Item = Statement<'a>;

    ghost next_gives = { YieldsFirstBy statement_node giving_left };

    ghost remaining = { item_count giving_left };

    fn next(&mut self) -> Option<Statement<'a>> {
        let (place, places) = self.places.split_first()?;
        while let Some((first, kept)) = self.kept.split_first() {
            if first.code == FORM {
                return None;
            }
            let position = self.position;
            self.kept = kept;
            self.position = position.wrapping_add(1);
            if first.place == *place {
                self.places = places;
                return Some(Statement {
                    node: node_at(self.ifr, first.place),
                    position,
                });
            }
        }
        None
    }
}

//! The statements of one form, found in the index.

ghost use Rattle.ifr_nodes.specs.Checked.{IsChecked};
ghost use Rattle.ifr_nodes.specs.code.Checked.{IsChecked-prop};
ghost use Rattle.ifr_index.specs.code.Tables.{AreEntries, AreEntries-prop};

use crate::statement::Statement;
use ifr_index::Entry;
use ifr_nodes::node_at;
use ifr_opcodes::{FORM, is_statement};

/// The statements that are left of a form, by place.
#[derive(Drop)]
pub struct StatementsOf<'s, 'a> {
    pub(crate) ifr: &'a [u8],
    // First comes what is left of the form, then the next form and what is behind it.
    pub(crate) kept: &'s [Entry],
    // How many stand before these entries.
    pub(crate) position: u32,
    pub ghost checked: { IsChecked ifr.now } by { IsChecked-prop ifr.now },
    pub ghost entries: { AreEntries ifr.now kept.now } by { AreEntries-prop ifr.now kept.now },
}

impl<'s, 'a> Iterator for StatementsOf<'s, 'a> {
    ghost use Rattle.std.specs.Iterator.{YieldsFirstBy, item_count};
    ghost use Rattle.ifr_scopes.specs.code.Lists.{statement_node};
    ghost use Rattle.ifr_scopes.specs.code.StatementsLeft.{statements_of_left};

    type Item = Statement<'a>;

    ghost next_gives = { YieldsFirstBy statement_node statements_of_left };

    ghost remaining = { item_count statements_of_left };

    fn next(&mut self) -> Option<Statement<'a>> {
        while let Some((first, kept)) = self.kept.split_first() {
            if first.code == FORM {
                return None;
            }
            let position = self.position;
            self.kept = kept;
            self.position = position.wrapping_add(1);
            if is_statement(first.code) {
                return Some(Statement {
                    node: node_at(self.ifr, first.place),
                    position,
                });
            }
        }
        None
    }
}

//! All statements of a package.

ghost use Rattle.ifr_nodes.specs.Checked.{IsChecked};
ghost use Rattle.ifr_nodes.specs.code.Checked.{IsChecked-prop};
ghost use Rattle.ifr_index.specs.code.Tables.{AreEntries, AreEntries-prop};

use crate::statement::Statement;
use ifr_index::Entry;
use ifr_nodes::node_at;
use ifr_opcodes::is_statement;

/// The statements that are left of all of a package, by place, found in the index.
#[derive(Drop)]
pub struct AllStatements<'s, 'a> {
    pub(crate) ifr: &'a [u8],
    pub(crate) entries: &'s [Entry],
    // How many stand before these entries.
    pub(crate) position: u32,
    pub ghost checked: { IsChecked ifr.now } by { IsChecked-prop ifr.now },
    pub ghost kept: { AreEntries ifr.now entries.now } by { AreEntries-prop ifr.now entries.now },
}

impl<'s, 'a> Iterator for AllStatements<'s, 'a> {
    ghost use Rattle.std.specs.Iterator.{YieldsFirstBy, item_count};
    ghost use Rattle.ifr_scopes.specs.code.Lists.{statement_node, all_statements_left};

    type Item = Statement<'a>;

    ghost next_gives = { YieldsFirstBy statement_node all_statements_left };

    ghost remaining = { item_count all_statements_left };

    fn next(&mut self) -> Option<Statement<'a>> {
        while let Some((entry, entries)) = self.entries.split_first() {
            let position = self.position;
            self.entries = entries;
            self.position = position.wrapping_add(1);
            if is_statement(entry.code) {
                return Some(Statement {
                    node: node_at(self.ifr, entry.place),
                    position,
                });
            }
        }
        None
    }
}

//! The guards in the scope of one question, found in the index.

ghost use Rattle.std.specs.Prelude.{◌≡◌, true, ◌&&◌, if◌then◌else◌};
ghost use Rattle.ifr_opcodes.specs.Fields.{question_id};
ghost use Rattle.ifr_nodes.specs.Checked.{IsChecked};
ghost use Rattle.ifr_nodes.specs.Nodes.{end_of as node_end, is_question};
ghost use Rattle.ifr_nodes.specs.code.Checked.{IsChecked-prop, has_node, node_in};
ghost use Rattle.ifr_nodes.specs.code.Views.{node_of};
ghost use Rattle.ifr_index.specs.code.Tables.{AreGuardEntries, AreGuardEntries-prop, begin_in};

use crate::guard::Guard;
use ifr_index::GuardEntry;
use ifr_nodes::{Node, end_of};

/// The guards that are left in the scope of a question, by place.
#[derive(Drop)]
pub struct GuardsIn<'s, 'a> {
    pub(crate) ifr: &'a [u8],
    // First come the guards that are left in the scope, then those behind it.
    pub(crate) guards: &'s [GuardEntry],
    // Those in the scope stand before this place, those behind it do not. It is in bytes from the package's header.
    pub(crate) ends: u32,
    pub ghost checked: { IsChecked ifr.now } by { IsChecked-prop ifr.now },
    pub ghost entries: { AreGuardEntries ifr.now guards.now } by { AreGuardEntries-prop ifr.now guards.now },
}

/// Before what place the guards in the scope of a question stand, among these guards, which are those behind it: before its
/// end, if the first of them stands in the scope of a question of the same id, else before its own place, where there is
/// none, as for a node that is no question. So its end is looked for only where there may be some.
pub(crate) fn guards_end(ifr: &[u8], node: Node, guards: &[GuardEntry]) -> u32
    requires checked { IsChecked ifr.now }
    requires there { has_node ifr.now (node_of node).place ≡ true }
    ensures { result ≡ (if is_question (node_of node.entry)
        && begin_in (question_id (node_of node.entry).op) guards.now
        then node_end (node_in ifr.now (node_of node.entry).place)
        else (node_of node.entry).place) }
{
    let place = node.op().place;
    if node.is_question() {
        if let Some(first) = guards.first() {
            if first.this == node.question().id() {
                return end_of(ifr, place);
            }
        }
    }
    place
}

impl<'s, 'a> Iterator for GuardsIn<'s, 'a> {
    ghost use Rattle.std.specs.Iterator.{YieldsFirstBy, item_count};
    ghost use Rattle.ifr_scopes.specs.code.GuardsInLeft.{guards_in_left};
    ghost use Rattle.ifr_scopes.specs.code.Lists.{guard_node};

    type Item = Guard<'a>;

    ghost next_gives = { YieldsFirstBy guard_node guards_in_left };

    ghost remaining = { item_count guards_in_left };

    fn next(&mut self) -> Option<Guard<'a>> {
        let (first, guards) = self.guards.split_first()?;
        if first.place >= self.ends {
            return None;
        }
        self.guards = guards;
        Some(Guard::kept(self.ifr, *first))
    }
}

//! The guards around a node, each with the question in whose scope it stands.

ghost use Rattle.std.specs.Prelude.{◌≡◌, ◌≤◌, ◌∷◌, ◌++◌, [], List, length, map};
ghost use Rattle.ifr_opcodes.specs.Forest.{Ancestor, as_ancestor};
ghost use Rattle.ifr_opcodes.specs.code.Marks.{ancestor_at};
ghost use Rattle.ifr_nodes.specs.Checked.{IsChecked};
ghost use Rattle.ifr_nodes.specs.Guards.{is_guard as is_guard_spec, guards_among as guards_among_spec, nodes_on};
ghost use Rattle.ifr_nodes.specs.code.Kept.{kept_guard};
ghost use Rattle.ifr_nodes.specs.Nodes.{this_among as this_among_spec};
ghost use Rattle.ifr_nodes.specs.code.Scopes.{AreScopes};
ghost use Rattle.ifr_nodes.specs.code.Views.{node_of};

use crate::guard_place::GuardPlace;
use crate::node::Node;
use crate::places::node_at;
use arrayvec::ArrayVec;
use ifr_opcodes::{DISABLE_IF, GRAY_OUT_IF, SUPPRESS_IF};

/// Whether this is the number of a guard.
pub fn is_guard(code: u8) -> bool
    ensures { result ≡ is_guard_spec code }
{
    code == SUPPRESS_IF || code == GRAY_OUT_IF || code == DISABLE_IF
}

// The id of the innermost question, where a node's scope is entered and this is the one around it.
fn this_within(node: Node<'_>, this: u16) -> u16
    ensures { (path : List Ancestor) → this_among_spec path ≡ this
        → this_among_spec (path ++ as_ancestor (node_of node.entry) ∷ []) ≡ result }
{
    if node.is_question() {
        node.question().id()
    } else {
        this
    }
}

/// The guards among the nodes at these places, each in the scope of the one before it.
pub(crate) fn guards_among(ifr: &[u8], places: &[u32]) -> ArrayVec<GuardPlace, 64>
    requires room { length places.now ≤ 64 }
    requires checked { IsChecked ifr.now }
    requires scopes { AreScopes ifr.now places.now }
    ensures { result.items ≡ map kept_guard
        (guards_among_spec (nodes_on [] (map (ancestor_at ifr.now) places.now))) }
{
    let mut guards = ArrayVec::new();
    let mut this = 0;
    for place in places {
        let node = node_at(ifr, *place);
        if node.is_guard() {
            guards.push(GuardPlace {
                place: *place,
                this,
            });
        }
        this = this_within(node, this);
    }
    guards
}

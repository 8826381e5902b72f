//! Nodes at places that were kept.

ghost use Rattle.std.specs.Prelude.{◌≡◌, true};
ghost use Rattle.ifr_nodes.specs.Checked.{IsChecked};
ghost use Rattle.ifr_nodes.specs.code.Checked.{has_node, node_in};
ghost use Rattle.ifr_nodes.specs.code.Views.{node_of};

use crate::node::Node;
use ifr_opcodes::op_there;

/// The node at a place of a checked package, an offset in bytes from its header.
#[inline(always)]
pub fn node_at(ifr: &[u8], place: u32) -> Node<'_>
    requires checked { IsChecked ifr.now }
    requires there { has_node ifr.now place ≡ true }
    ensures node { node_of result ≡ node_in ifr.entry.now place }
    ensures kept { result.ifr.now ≡ ifr.entry.now }
{
    let op = op_there(ifr, place);
    Node { ifr, op }
}

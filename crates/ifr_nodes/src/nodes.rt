//! The nodes of a checked package, one after the other.

ghost use Rattle.std.specs.Prelude.{◌≡◌, ◌∷◌, [], IfNone, IfSome};
ghost use Rattle.ifr_opcodes.specs.Forest.{below};
ghost use Rattle.ifr_nodes.specs.Nodes.{nodes_of};
ghost use Rattle.ifr_nodes.specs.Checked.{IsChecked};
ghost use Rattle.ifr_nodes.specs.code.Checked.{IsChecked-prop, AreAt, AreAt-prop};
ghost use Rattle.ifr_nodes.specs.code.Visits.{left};

use crate::node::Node;
use crate::walk::Walk;

/// The nodes that are left of a checked package, or of those inside of a node, by place.
#[derive(Drop)]
pub struct Nodes<'a> {
    walk: Walk<'a>,
    ghost checked: { IsChecked walk.bytes.now } by { IsChecked-prop walk.bytes.now },
    ghost stand: { AreAt walk.bytes.now (left walk) } by { AreAt-prop walk.bytes.now (left walk) },
}

impl<'a> Nodes<'a> {
    ghost use Rattle.ifr_nodes.specs.code.Views.{node_of, nodes_left};

    /// All nodes of a package.
    pub fn over(ifr: &'a [u8]) -> Nodes<'a>
        requires { IsChecked ifr.now }
        ensures all { nodes_left result ≡ nodes_of ifr.now }
        ensures kept { result.walk.bytes.now ≡ ifr.now }
    {
        Nodes {
            walk: Walk::over(ifr),
        }
    }

    /// The nodes below a node.
    pub fn inside(node: Node<'a>) -> Nodes<'a>
        ensures { nodes_left result ≡ below (node_of node.entry) }
    {
        Nodes {
            walk: Walk::inside(node.ifr, node.op.place),
        }
    }

    /// Goes to the next node.
    pub fn step(&mut self) -> Option<Node<'a>>
        ensures none { IfNone result ((nodes_left self.old ≡ []) × (nodes_left self.new ≡ [])) }
        ensures some { IfSome result
            (λ node. (nodes_left self.old ≡ node_of node ∷ nodes_left self.new)
            × (node.ifr.now ≡ self.old.walk.bytes.now)) }
        ensures kept { self.new.walk.bytes.now ≡ self.old.walk.bytes.now }
    {
        match self.walk.step() {
            Some(visit) => Some(Node {
                ifr: self.walk.bytes(),
                op: visit.op,
            }),
            None => None,
        }
    }
}

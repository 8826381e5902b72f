//! The nodes of a checked package, each with the scopes around it.

ghost use Rattle.std.specs.Prelude.{◌≡◌, ◌∷◌, [], IfNone, IfSome};
ghost use Rattle.ifr_nodes.specs.Checked.{IsChecked};
ghost use Rattle.ifr_nodes.specs.code.Checked.{IsChecked-prop, AreNodesOf, AreNodesOf-prop};
ghost use Rattle.ifr_nodes.specs.Nodes.{nodes_of};
ghost use Rattle.ifr_nodes.specs.code.Visits.{left};

use crate::form_end::form_among;
use crate::guard_place::GuardPlace;
use crate::guards::guards_among;
use crate::node::Node;
use crate::walk::Walk;
use arrayvec::ArrayVec;

/// A node, and how many scopes are around it.
#[derive(Clone, Copy)]
pub struct ScopedNode<'a> {
    pub node: Node<'a>,
    pub depth: usize,
}

/// The nodes that are left of a checked package, by place.
#[derive(Drop)]
pub struct ScopedNodes<'a> {
    walk: Walk<'a>,
    ghost checked: { IsChecked walk.bytes.now } by { IsChecked-prop walk.bytes.now },
    ghost nodes: { AreNodesOf walk.bytes.now (left walk) } by { AreNodesOf-prop walk.bytes.now (left walk) },
}

impl<'a> ScopedNodes<'a> {
    ghost use Rattle.ifr_nodes.specs.code.Around.{IsAround};
    ghost use Rattle.ifr_nodes.specs.code.Kept.{kept_guards};
    ghost use Rattle.std.specs.Prelude.{None, option_map};
    ghost use Rattle.std.specs.List.{last_or};
    ghost use Rattle.ifr_nodes.specs.Locks.{chain};
    ghost use Rattle.ifr_nodes.specs.Rules.{forms_among};
    ghost use Rattle.ifr_nodes.specs.Structure.{parent};
    ghost use Rattle.ifr_nodes.specs.code.Views.{node_of};

    /// All nodes of a package.
    pub fn over(ifr: &'a [u8]) -> ScopedNodes<'a>
        requires { IsChecked ifr.now }
        ensures all { left result.walk ≡ nodes_of ifr.now }
        ensures kept { result.walk.bytes.now ≡ ifr.now }
    {
        ScopedNodes {
            walk: Walk::over(ifr),
        }
    }

    /// Goes to the next node.
    pub fn step(&mut self) -> Option<ScopedNode<'a>>
        ensures none { IfNone result ((left self.old.walk ≡ []) × (left self.new.walk ≡ [])) }
        ensures some { IfSome result
            (λ met. (left self.old.walk ≡ node_of met.node ∷ left self.new.walk)
            × IsAround self.new met) }
        ensures kept { self.new.walk.bytes.now ≡ self.old.walk.bytes.now }
    {
        match self.walk.step() {
            Some(visit) => Some(ScopedNode {
                node: Node {
                    ifr: self.walk.bytes(),
                    op: visit.op,
                },
                depth: visit.depth,
            }),
            None => None,
        }
    }

    /// The guards around the node that was met last, the outermost first.
    pub fn guards(&self, met: &ScopedNode) -> ArrayVec<GuardPlace, 64>
        requires { IsAround self.now met.now }
        ensures { result.items ≡ kept_guards (node_of met.now.node) }
    {
        guards_among(self.walk.bytes(), self.walk.around(met.depth))
    }

    /// The place of what the node stands in that was met last, if it stands in something.
    pub fn parent(&self, met: &ScopedNode) -> Option<u32>
        requires { IsAround self.now met.now }
        ensures { result ≡ option_map (λ a. a.place) (parent (node_of met.now.node)) }
    {
        self.walk.around(met.depth).last().copied()
    }

    /// The places of what stands around the node that was met last, the outermost first, and its own.
    pub fn chain(&self, met: &ScopedNode) -> ArrayVec<u32, 65>
        requires { IsAround self.now met.now }
        ensures { result.items ≡ chain (node_of met.now.node) }
    {
        let mut chain = ArrayVec::new();
        chain
            .try_extend_from_slice(self.walk.around(met.depth))
            .unwrap();
        chain.push(met.node.op().place);
        chain
    }

    /// The place of the innermost form around the node that was met last, if there is one.
    pub fn form(&self, met: &ScopedNode) -> Option<u32>
        requires { IsAround self.now met.now }
        ensures { result ≡ option_map (λ a. a.place)
            (last_or None (forms_among (node_of met.now.node).path)) }
    {
        form_among(self.walk.bytes(), self.walk.around(met.depth))
    }
}

//! The nodes of a number in the scope of a question.

ghost use Rattle.std.specs.Prelude.{◌≡◌, ◌==◌, IfSome};
ghost use Rattle.ifr_opcodes.specs.Opcode.{number};
ghost use Rattle.ifr_nodes.specs.Nodes.{of_question};
ghost use Rattle.ifr_nodes.specs.code.Views.{node_of};

use crate::node::Node;
use crate::nodes::Nodes;

/// The nodes of a number that are left in the scope of a question.
#[derive(Drop)]
pub struct NodesOf<'a> {
    nodes: Nodes<'a>,
    code: u8,
    question: bool,
}

impl<'a> NodesOf<'a> {
    ghost use Rattle.std.specs.Iterator.{YieldsFirstBy};
    ghost use Rattle.ifr_nodes.specs.code.PartsLeft.{parts_left};

    /// The nodes of a number in the scope of a node, where it is a question; none of another.
    pub fn question(node: Node<'a>, code: u8) -> NodesOf<'a>
        ensures left { parts_left result
            ≡ of_question (λ n. number n.op == code) (node_of node.entry) }
        ensures coded { result.code ≡ code }
    {
        NodesOf {
            nodes: Nodes::inside(node),
            code,
            question: node.is_question(),
        }
    }

    /// Goes to the next of them.
    pub fn step(&mut self) -> Option<Node<'a>>
        ensures steps { YieldsFirstBy node_of parts_left self.old result self.new }
        ensures coded { IfSome result (λ node. number (node_of node).op ≡ self.old.code) }
        ensures stays { self.new.code ≡ self.old.code }
    {
        if !self.question {
            return None;
        }
        while let Some(node) = self.nodes.step() {
            if node.op().code == self.code {
                return Some(node);
            }
        }
        None
    }
}

//! The defaults of questions.

ghost use Rattle.std.specs.Prelude.{◌≡◌, true, option_map};
ghost use Rattle.ifr_opcodes.specs.declared.codes.TheConstants.{DEFAULT};
ghost use Rattle.ifr_nodes.specs.Nodes.{is_default};
ghost use Rattle.ifr_nodes.specs.code.Views.{node_of};

use ifr_expr::Expr;
use ifr_nodes::{Node, NodesOf, node_at, wants_value};
use ifr_opcodes::DefaultOp;

/// A default of a question (UEFI 2.8, 33.3.8.3, EFI_IFR_DEFAULT).
#[derive(Clone, Copy)]
pub struct DefaultView<'a> {
    pub(crate) node: Node<'a>,
    pub ghost default: { is_default (node_of node) ≡ true },
}

impl<'a> DefaultView<'a> {
    ghost use Rattle.ifr_opcodes.specs.code.Ops.{bytes_of};
    ghost use Rattle.ifr_expr.specs.code.Expressions.{tree_of};
    ghost use Rattle.ifr_nodes.specs.NodeExpressions.{value_tree};
    ghost use Rattle.ifr_scopes.specs.code.Parts.{default_node};

    /// The place of the default, in bytes from the package's header.
    pub fn place(self) -> u32
        ensures { result ≡ (default_node self.entry).place }
    {
        self.node.op().place
    }

    /// The opcode of the default.
    pub fn op(self) -> DefaultOp<'a>
        ensures place { result.op.place ≡ (default_node self.entry).place }
        ensures bytes { bytes_of result.op ≡ (default_node self.entry).op }
    {
        self.node.default()
    }

    /// The expression whose value it is, where its Type says no other.
    pub fn value(self) -> Option<Expr<'a>>
        ensures { option_map tree_of result ≡ value_tree (default_node self.entry) }
    {
        let op = self.node.op();
        if !wants_value(op) {
            return None;
        }
        let value = node_at(self.node.ifr, op.place + op.len() as u32);
        Some(value.expression())
    }
}

/// The defaults that are left of a question, by place.
#[derive(Drop)]
pub struct Defaults<'a> {
    pub(crate) nodes: NodesOf<'a>,
    pub ghost coded: { nodes.code ≡ DEFAULT },
}

impl<'a> Iterator for Defaults<'a> {
    ghost use Rattle.std.specs.Iterator.{YieldsFirstBy, item_count};
    ghost use Rattle.ifr_scopes.specs.code.Parts.{default_node, defaults_left};

    type Item = DefaultView<'a>;

    ghost next_gives = { YieldsFirstBy default_node defaults_left };

    ghost remaining = { item_count defaults_left };

    fn next(&mut self) -> Option<DefaultView<'a>> {
        let node = self.nodes.step()?;
        Some(DefaultView { node })
    }
}

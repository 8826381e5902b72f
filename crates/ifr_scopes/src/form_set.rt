//! The form set of a package.

ghost use Rattle.std.specs.Prelude.{◌≡◌, true};
ghost use Rattle.ifr_nodes.specs.Nodes.{is_form_set};
ghost use Rattle.ifr_nodes.specs.code.Views.{node_of};

use ifr_nodes::Node;
use ifr_opcodes::FormSetOp;

/// The form set of a package (UEFI 2.8, 33.2.5.1 Form Sets).
#[derive(Clone, Copy)]
pub struct FormSet<'a> {
    pub(crate) node: Node<'a>,
    pub ghost form_set: { is_form_set (node_of node) ≡ true },
}

impl<'a> FormSet<'a> {
    ghost use Rattle.ifr_opcodes.specs.code.Ops.{bytes_of};
    ghost use Rattle.ifr_scopes.specs.code.Lists.{form_set_node};

    /// The place of the form set, in bytes from the package's header.
    pub fn place(self) -> u32
        ensures { result ≡ (form_set_node self.entry).place }
    {
        self.node.op().place
    }

    /// The opcode of the form set.
    pub fn op(self) -> FormSetOp<'a>
        ensures place { result.op.place ≡ (form_set_node self.entry).place }
        ensures bytes { bytes_of result.op ≡ (form_set_node self.entry).op }
    {
        self.node.form_set()
    }
}

//! Forms.

ghost use Rattle.std.specs.Prelude.{◌≡◌, true};
ghost use Rattle.ifr_nodes.specs.Nodes.{is_form};
ghost use Rattle.ifr_nodes.specs.code.Views.{node_of};

use crate::guards_of::GuardsOf;
use crate::statement::Statements;
use ifr_nodes::{Node, Nodes};
use ifr_opcodes::FormOp;

/// A form (UEFI 2.8, 33.2.5.2 Forms).
#[derive(Clone, Copy)]
pub struct Form<'a> {
    pub(crate) node: Node<'a>,
    pub ghost form: { is_form (node_of node) ≡ true },
}

impl<'a> Form<'a> {
    ghost use Rattle.ifr_opcodes.specs.code.Ops.{bytes_of};
    ghost use Rattle.ifr_nodes.specs.Nodes.{statements};
    ghost use Rattle.ifr_nodes.specs.Guards.{guards};
    ghost use Rattle.ifr_scopes.specs.code.Lists.{guards_of_left, form_node, form_package, statements_left};

    /// The place of the form, in bytes from the package's header.
    pub fn place(self) -> u32
        ensures { result ≡ (form_node self.entry).place }
    {
        self.node.op().place
    }

    /// The guards of the form, the outermost first, found by a walk from the package's start; `Forms::guards_at` looks them
    /// up.
    pub fn guards(self) -> GuardsOf<'a>
        ensures guards { guards_of_left result ≡ guards (form_node self.entry) }
        ensures of_package { result.ifr.now ≡ form_package self.entry }
    {
        GuardsOf::around(self.node.ifr, self.node.op.place)
    }

    /// The opcode of the form.
    pub fn op(self) -> FormOp<'a>
        ensures place { result.op.place ≡ (form_node self.entry).place }
        ensures bytes { bytes_of result.op ≡ (form_node self.entry).op }
    {
        self.node.form()
    }

    /// The statements of the form, by place.
    pub fn statements(self) -> Statements<'a>
        ensures { statements_left result ≡ statements (form_node self.entry) }
    {
        Statements {
            nodes: Nodes::inside(self.node),
        }
    }
}

/// The forms that are left of a package, by place.
#[derive(Drop)]
pub struct FormViews<'a> {
    pub(crate) nodes: Nodes<'a>,
}

impl<'a> Iterator for FormViews<'a> {
    ghost use Rattle.std.specs.Iterator.{YieldsFirstBy, item_count};
    ghost use Rattle.ifr_scopes.specs.code.Lists.{form_node, forms_left};

    type Item = Form<'a>;

    ghost next_gives = { YieldsFirstBy form_node forms_left };

    ghost remaining = { item_count forms_left };

    fn next(&mut self) -> Option<Form<'a>> {
        while let Some(node) = self.nodes.step() {
            if node.is_form() {
                return Some(Form { node });
            }
        }
        None
    }
}

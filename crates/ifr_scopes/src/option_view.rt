//! The options of questions.

ghost use Rattle.std.specs.Prelude.{◌≡◌, true};
ghost use Rattle.ifr_opcodes.specs.declared.codes.TheConstants.{ONE_OF_OPTION};
ghost use Rattle.ifr_nodes.specs.Accepted.{IsAccepted};
ghost use Rattle.ifr_nodes.specs.Nodes.{is_option};
ghost use Rattle.ifr_nodes.specs.code.Checked.{node_in};
ghost use Rattle.ifr_nodes.specs.code.Views.{node_of};

use crate::guards_of::GuardsOf;
use crate::locks::Locks;
use ifr_nodes::{Node, NodesOf, node_at};
use ifr_opcodes::OptionOp;

/// An option of a question (UEFI 2.8, 33.3.8.3, EFI_IFR_ONE_OF_OPTION).
#[derive(Clone, Copy)]
pub struct OptionView<'a> {
    pub(crate) node: Node<'a>,
    // At which position of the index it is looked for first.
    pub(crate) position: u32,
    pub ghost option: { is_option (node_of node) ≡ true },
}

impl<'a> OptionView<'a> {
    ghost use Rattle.ifr_opcodes.specs.code.Ops.{bytes_of};
    ghost use Rattle.ifr_nodes.specs.Guards.{guards};
    ghost use Rattle.ifr_nodes.specs.Locks.{locks};
    ghost use Rattle.ifr_scopes.specs.code.LocksLeft.{locks_left};
    ghost use Rattle.ifr_nodes.specs.Nodes.{nodes_of};
    ghost use Rattle.ifr_scopes.specs.code.Lists.{guards_of_left};
    ghost use Rattle.ifr_scopes.specs.code.Parts.{has_option, option_node, option_package};

    /// The option at a place of an accepted package, in bytes from its header, where one stands, with a position at which it is
    /// looked for first.
    #[inline(always)]
    pub fn at(ifr: &'a [u8], place: u32, position: u32) -> OptionView<'a>
        requires accepted { IsAccepted ifr.now }
        requires there { has_option ifr.now place ≡ true }
        ensures node { option_node result ≡ node_in ifr.entry.now place }
    {
        OptionView {
            node: node_at(ifr, place),
            position,
        }
    }

    /// How many forms, statements and options stand before it, if it comes from an index, and else 0: where `Forms` looks
    /// for it first. What is found there is compared with its place.
    pub fn position(self) -> u32
        ensures { result ≡ self.entry.position }
    {
        self.position
    }

    /// The place of the option, in bytes from the package's header.
    pub fn place(self) -> u32
        ensures { result ≡ (option_node self.entry).place }
    {
        self.node.op().place
    }

    /// The opcode of the option.
    pub fn op(self) -> OptionOp<'a>
        ensures place { result.op.place ≡ (option_node self.entry).place }
        ensures bytes { bytes_of result.op ≡ (option_node self.entry).op }
    {
        self.node.option()
    }

    /// The guards of the option, the outermost first, found by a walk from the package's start; `Forms::guards_at` looks them
    /// up.
    pub fn guards(self) -> GuardsOf<'a>
        ensures guards { guards_of_left result ≡ guards (option_node self.entry) }
        ensures of_package { result.ifr.now ≡ option_package self.entry }
    {
        GuardsOf::around(self.node.ifr, self.node.op.place)
    }

    /// The LOCKED that lock it, by what they stand in, the outermost first, then by place; found by walks from the package's
    /// start.
    pub fn locks(self) -> Locks<'a>
        ensures locks { locks_left result
            ≡ locks (nodes_of (option_package self.entry)) (option_node self.entry) }
        ensures of_package { result.ifr.now ≡ option_package self.entry }
    {
        Locks::around(self.node.ifr, self.node.op.place)
    }
}

/// The options that are left of a question, by place.
#[derive(Drop)]
pub struct Options<'a> {
    pub(crate) nodes: NodesOf<'a>,
    pub ghost coded: { nodes.code ≡ ONE_OF_OPTION },
}

impl<'a> Iterator for Options<'a> {
    ghost use Rattle.std.specs.Iterator.{YieldsFirstBy, item_count};
    ghost use Rattle.ifr_scopes.specs.code.Parts.{option_node, options_left};

    type Item = OptionView<'a>;

    ghost next_gives = { YieldsFirstBy option_node options_left };

    ghost remaining = { item_count options_left };

    fn next(&mut self) -> Option<OptionView<'a>> {
        let node = self.nodes.step()?;
        Some(OptionView { node, position: 0 })
    }
}

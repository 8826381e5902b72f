//! Guards and their conditions.

ghost use Rattle.std.specs.Prelude.{◌≡◌, Some, None, true};
ghost use Rattle.ifr_opcodes.specs.Opcode.{number as opcode_number};
ghost use Rattle.ifr_nodes.specs.Guards.{is_guard};
ghost use Rattle.ifr_nodes.specs.Nodes.{nodes_of, this_of};
ghost use Rattle.ifr_nodes.specs.Checked.{IsChecked};
ghost use Rattle.ifr_nodes.specs.code.Checked.{IsChecked-prop, has_guard, node_in};
ghost use Rattle.ifr_nodes.specs.code.Ends.{expression_end};
ghost use Rattle.ifr_index.specs.code.Tables.{AreBefore, AreBefore-prop, AreGuardEntries, AreGuardEntries-prop, IsGuardEntry, guards_before};
ghost use Rattle.ifr_nodes.specs.code.Views.{node_of};

use ifr_expr::Expr;
use ifr_index::GuardEntry;
use ifr_nodes::{Node, node_at};
use ifr_opcodes::Op;

/// A guard: a SUPPRESS_IF, GRAY_OUT_IF or DISABLE_IF (UEFI 2.8, 33.3.8.3, under the name of each). Its opcode is decoded only where
/// it is asked for.
#[derive(Clone, Copy)]
pub struct Guard<'a> {
    pub(crate) ifr: &'a [u8],
    pub(crate) place: u32,
    // The number of its opcode.
    pub(crate) code: u8,
    pub(crate) this: u16,
    // Where its condition ends, in bytes from the package's header.
    pub(crate) ends: u32,
    // How many guards of the package stand before it, if that is known.
    pub(crate) number: Option<u32>,
    pub ghost checked: { IsChecked ifr.now } by { IsChecked-prop ifr.now },
    pub ghost stands: { has_guard ifr.now place ≡ true },
    pub ghost coded: { code ≡ opcode_number (node_in ifr.now place).op },
    pub ghost within: { this ≡ this_of (node_in ifr.now place) },
    pub ghost ended: { ends ≡ expression_end (node_in ifr.now place) },
    pub ghost counted: { AreBefore (nodes_of ifr.now) number place } by { AreBefore-prop (nodes_of ifr.now) number place },
}

impl<'a> Guard<'a> {
    ghost use Rattle.ifr_opcodes.specs.code.Ops.{bytes_of};
    ghost use Rattle.ifr_nodes.specs.NodeExpressions.{expression_tree};
    ghost use Rattle.ifr_scopes.specs.code.Lists.{guard_node, guard_package};
    ghost use Rattle.ifr_expr.specs.code.Expressions.{tree_of};

    /// A guard of an index.
    pub(crate) fn kept(ifr: &'a [u8], guard: GuardEntry) -> Guard<'a>
        requires checked { IsChecked ifr.now }
        requires kept { IsGuardEntry ifr.now guard }
        ensures node { guard_node result ≡ node_in ifr.entry.now guard.place }
        ensures of_package { result.ifr.now ≡ ifr.entry.now }
        ensures place { result.place ≡ guard.place }
    {
        Guard {
            ifr,
            place: guard.place,
            code: guard.code,
            this: guard.this,
            ends: guard.ends,
            number: None,
        }
    }

    /// The guard that this node is, in the scope of the question of this id.
    pub(crate) fn met(node: Node<'a>, this: u16) -> Guard<'a>
        requires guards { is_guard (opcode_number (node_of node).op) ≡ true }
        requires within { this ≡ this_of (node_of node) }
        ensures node { guard_node result ≡ node_of node.entry }
        ensures of_package { result.ifr.now ≡ node.entry.ifr.now }
    {
        Guard {
            ifr: node.ifr,
            place: node.op.place,
            code: node.op.code,
            this,
            ends: node.expression_end(),
            number: None,
        }
    }

    /// The same guard, of which it is known how many stand before it.
    pub(crate) fn numbered(self, number: u32) -> Guard<'a>
        requires { number ≡ guards_before (nodes_of self.ifr.now) self.place }
        ensures node { guard_node result ≡ guard_node self.entry }
        ensures of_package { result.ifr.now ≡ self.entry.ifr.now }
        ensures number { result.number ≡ Some number }
    {
        Guard {
            ifr: self.ifr,
            place: self.place,
            code: self.code,
            this: self.this,
            ends: self.ends,
            number: Some(number),
        }
    }

    // The node that it is.
    fn node(self) -> Node<'a>
        ensures { node_of result ≡ guard_node self.entry }
    {
        node_at(self.ifr, self.place)
    }

    /// The place of the guard, in bytes from the package's header.
    pub fn place(self) -> u32
        ensures { result ≡ (guard_node self.entry).place }
    {
        self.place
    }

    /// The number of its opcode.
    pub fn code(self) -> u8
        ensures { result ≡ opcode_number (guard_node self.entry).op }
    {
        self.code
    }

    /// Its number among the guards of the package, by place, from 0 on: it is known of those that `Forms` looks up around
    /// something.
    pub fn number(self) -> Option<u32>
        ensures known { result ≡ self.entry.number }
        ensures counted { AreBefore (nodes_of (guard_package self.entry)) result
            (guard_node self.entry).place }
    {
        self.number
    }

    /// The opcode of the guard.
    pub fn op(self) -> Op<'a>
        ensures place { result.place ≡ (guard_node self.entry).place }
        ensures bytes { bytes_of result ≡ (guard_node self.entry).op }
    {
        self.node().op()
    }

    /// The id of the question in whose scope it stands, or 0.
    pub fn this(self) -> u16
        ensures { result ≡ this_of (guard_node self.entry) }
    {
        self.this
    }

    /// The condition of the guard: the expression with which its scope begins.
    pub fn condition(self) -> Expr<'a>
        ensures { tree_of result ≡ expression_tree (guard_node self.entry) }
    {
        self.node().expression_to(self.ends)
    }
}

/// The guards that are left of a package, by place.
#[derive(Drop)]
pub struct GuardViews<'s, 'a> {
    pub(crate) ifr: &'a [u8],
    pub(crate) guards: &'s [GuardEntry],
    pub ghost checked: { IsChecked ifr.now } by { IsChecked-prop ifr.now },
    pub ghost entries: { AreGuardEntries ifr.now guards.now } by { AreGuardEntries-prop ifr.now guards.now },
}

impl<'s, 'a> Iterator for GuardViews<'s, 'a> {
    ghost use Rattle.std.specs.Iterator.{YieldsFirstBy, item_count};
    ghost use Rattle.ifr_scopes.specs.code.Lists.{guard_node, all_guards_left};

    type Item = Guard<'a>;

    ghost next_gives = { YieldsFirstBy guard_node all_guards_left };

    ghost remaining = { item_count all_guards_left };

    fn next(&mut self) -> Option<Guard<'a>> {
        match self.guards {
            [guard, guards @ ..] => {
                let view = Guard::kept(self.ifr, *guard);
                self.guards = guards;
                Some(view)
            }
            [] => None,
        }
    }
}

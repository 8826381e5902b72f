//! The LOCKED of nodes, found by walks from the package's start.

ghost use Rattle.std.specs.Prelude.{◌≡◌, true};
ghost use Rattle.ifr_nodes.specs.Checked.{IsChecked};
ghost use Rattle.ifr_nodes.specs.code.Checked.{IsChecked-prop, has_node, node_in};
ghost use Rattle.ifr_nodes.specs.Locks.{is_locked, chain as chain_spec};
ghost use Rattle.ifr_nodes.specs.code.Views.{node_of};

use arrayvec::ArrayVec;
use ifr_nodes::{Node, ScopedNodes};
use ifr_opcodes::{LOCKED, Op};

/// A LOCKED (UEFI 2.8, 33.3.8.3, EFI_IFR_LOCKED). It locks the node in whose scope it stands, and all inside of it (own
/// rule).
#[derive(Clone, Copy)]
pub struct LockView<'a> {
    pub(crate) node: Node<'a>,
    pub ghost locked: { is_locked (node_of node) ≡ true },
}

impl<'a> LockView<'a> {
    ghost use Rattle.ifr_opcodes.specs.code.Ops.{bytes_of};
    ghost use Rattle.ifr_scopes.specs.code.LocksLeft.{lock_node};

    /// The place of the LOCKED, in bytes from the package's header.
    pub fn place(self) -> u32
        ensures { result ≡ (lock_node self.entry).place }
    {
        self.node.op().place
    }

    /// The opcode of the LOCKED.
    pub fn op(self) -> Op<'a>
        ensures place { result.place ≡ (lock_node self.entry).place }
        ensures bytes { bytes_of result ≡ (lock_node self.entry).op }
    {
        self.node.op()
    }
}

/// The LOCKED of a statement or an option that are left, by what they stand in, the outermost first, then by place.
#[derive(Drop)]
pub struct Locks<'a> {
    ifr: &'a [u8],
    chain: ArrayVec<u32, 65>,
    next: usize,
    scope: Option<u32>,
    nodes: ScopedNodes<'a>,
    pub ghost checked: { IsChecked ifr.now } by { IsChecked-prop ifr.now },
    ghost same: { nodes.walk.bytes.now ≡ ifr.now },
}

impl<'a> Locks<'a> {
    ghost use Rattle.std.specs.Prelude.{◌∷◌, [], IfNone, IfSome, filter};
    ghost use Rattle.ifr_nodes.specs.Locks.{locks, locks_scope};
    ghost use Rattle.ifr_scopes.specs.code.LocksLeft.{lock_node, locks_left};
    ghost use Rattle.ifr_nodes.specs.Nodes.{nodes_of};
    ghost use Rattle.ifr_nodes.specs.code.Visits.{left};

    /// The LOCKED of the node at a place of a checked package.
    pub(crate) fn around(ifr: &'a [u8], place: u32) -> Locks<'a>
        requires checked { IsChecked ifr.now }
        requires there { has_node ifr.now place ≡ true }
        ensures locks { locks_left result ≡ locks (nodes_of ifr.now) (node_in ifr.now place) }
        ensures of_package { result.ifr.now ≡ ifr.now }
    {
        Locks {
            ifr,
            chain: chain_of(ifr, place),
            next: 0,
            scope: None,
            nodes: ScopedNodes::over(ifr),
        }
    }

    // Goes to the next LOCKED of the scope that is looked through.
    fn step_in(&mut self, scope: u32) -> Option<LockView<'a>>
        ensures none { IfNone result ((filter (locks_scope scope) (left self.old.nodes.walk) ≡ [])
            × (left self.new.nodes.walk ≡ [])) }
        ensures some { IfSome result (λ lock. filter (locks_scope scope) (left self.old.nodes.walk)
            ≡ lock_node lock ∷ filter (locks_scope scope) (left self.new.nodes.walk)) }
        ensures stays { (self.new.ifr ≡ self.old.ifr) × (self.new.chain ≡ self.old.chain)
            × (self.new.next ≡ self.old.next) × (self.new.scope ≡ self.old.scope) }
    {
        while let Some(met) = self.nodes.step() {
            let op = met.node.op();
            if op.code == LOCKED && self.nodes.parent(&met) == Some(scope) {
                return Some(LockView { node: met.node });
            }
        }
        None
    }
}

// The places of what stands around the node at a place, the outermost first, and this place.
fn chain_of(ifr: &[u8], place: u32) -> ArrayVec<u32, 65>
    requires checked { IsChecked ifr.now }
    requires there { has_node ifr.now place ≡ true }
    ensures { result.items ≡ chain_spec (node_in ifr.now place) }
{
    let mut nodes = ScopedNodes::over(ifr);
    while let Some(met) = nodes.step() {
        if met.node.op().place == place {
            return nodes.chain(&met);
        }
    }
    ArrayVec::new()
}

impl<'a> Iterator for Locks<'a> {
    ghost use Rattle.std.specs.Iterator.{YieldsFirstBy, item_count};
    ghost use Rattle.ifr_scopes.specs.code.LocksLeft.{lock_node, locks_left};

    type Item = LockView<'a>;

    ghost next_gives = { YieldsFirstBy lock_node locks_left };

    ghost remaining = { item_count locks_left };

    fn next(&mut self) -> Option<LockView<'a>> {
        loop {
            if let Some(scope) = self.scope {
                if let Some(lock) = self.step_in(scope) {
                    return Some(lock);
                }
            }
            self.scope = Some(*self.chain.as_slice().get(self.next)?);
            self.next += 1;
            self.nodes = ScopedNodes::over(self.ifr);
        }
    }
}

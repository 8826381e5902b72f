//! The guards around one node, found by a walk.

ghost use Rattle.std.specs.Prelude.{◌≡◌, true, IfSome};
ghost use Rattle.ifr_nodes.specs.Checked.{IsChecked};
ghost use Rattle.ifr_nodes.specs.code.Checked.{IsChecked-prop, has_node, node_in};
ghost use Rattle.ifr_nodes.specs.Guards.{guards as guards_of_node};
ghost use Rattle.ifr_nodes.specs.code.Kept.{AreKept, AreKept-prop, kept_guards};

use crate::guard::Guard;
use arrayvec::ArrayVec;
use ifr_nodes::{GuardPlace, ScopedNodes, node_at};

/// The guards of a form, a statement or an option that are left, the outermost first.
#[derive(Drop)]
pub struct GuardsOf<'a> {
    ifr: &'a [u8],
    kept: ArrayVec<GuardPlace, 64>,
    next: usize,
    pub ghost checked: { IsChecked ifr.now } by { IsChecked-prop ifr.now },
    pub ghost guards: { AreKept ifr.now kept.items } by { AreKept-prop ifr.now kept.items },
}

impl<'a> GuardsOf<'a> {
    ghost use Rattle.std.specs.Iterator.{YieldsFirstBy};
    ghost use Rattle.ifr_scopes.specs.code.Lists.{guard_node, guard_package, guards_of_left};

    /// The guards of the node at a place of a checked package.
    pub(crate) fn around(ifr: &'a [u8], place: u32) -> GuardsOf<'a>
        requires checked { IsChecked ifr.now }
        requires there { has_node ifr.now place ≡ true }
        ensures guards { guards_of_left result ≡ guards_of_node (node_in ifr.now place) }
        ensures of_package { result.ifr.now ≡ ifr.now }
    {
        let kept = guards_around(ifr, place);
        GuardsOf { ifr, kept, next: 0 }
    }

    /// Goes to the next guard, as `next` does: one of the same package.
    pub fn step(&mut self) -> Option<Guard<'a>>
        ensures steps { YieldsFirstBy guard_node guards_of_left self.old result self.new }
        ensures of_package { IfSome result (λ guard. guard_package guard ≡ self.old.ifr.now) }
        ensures kept { self.new.ifr.now ≡ self.old.ifr.now }
    {
        let guard = *self.kept.as_slice().get(self.next)?;
        self.next += 1;
        Some(Guard::met(node_at(self.ifr, guard.place), guard.this))
    }
}

// The guards of the node at a place.
fn guards_around(ifr: &[u8], place: u32) -> ArrayVec<GuardPlace, 64>
    requires checked { IsChecked ifr.now }
    requires there { has_node ifr.now place ≡ true }
    ensures { result.items ≡ kept_guards (node_in ifr.now place) }
{
    let mut nodes = ScopedNodes::over(ifr);
    while let Some(met) = nodes.step() {
        if met.node.op().place == place {
            return nodes.guards(&met);
        }
    }
    ArrayVec::new()
}

impl<'a> Iterator for GuardsOf<'a> {
    ghost use Rattle.std.specs.Iterator.{YieldsFirstBy, item_count};
    ghost use Rattle.ifr_scopes.specs.code.Lists.{guard_node, guards_of_left};

    type Item = Guard<'a>;

    ghost next_gives = { YieldsFirstBy guard_node guards_of_left };

    ghost remaining = { item_count guards_of_left };

    fn next(&mut self) -> Option<Guard<'a>> {
        self.step()
    }
}

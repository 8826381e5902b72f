//! The guards at places, from the outermost inwards.

ghost use Rattle.std.specs.Prelude.{◌≡◌, true, IfSome, is_some};
ghost use Rattle.ifr_nodes.specs.Checked.{IsChecked};
ghost use Rattle.ifr_nodes.specs.Nodes.{nodes_of};
ghost use Rattle.ifr_nodes.specs.code.Checked.{IsChecked-prop};
ghost use Rattle.ifr_index.specs.code.Tables.{IsGuardTable, IsGuardTable-prop, AreNumbers, AreNumbers-prop};

use crate::guard::Guard;
use arrayvec::ArrayVec;
use ifr_index::GuardEntry;

/// The guards of a form, a statement or an option that are left, the outermost first.
#[derive(Drop)]
pub struct GuardsAt<'s, 'a> {
    pub(crate) ifr: &'a [u8],
    pub(crate) guards: &'s [GuardEntry],
    // The numbers of the guards, the innermost first.
    pub(crate) numbers: ArrayVec<u32, 64>,
    pub ghost checked: { IsChecked ifr.now } by { IsChecked-prop ifr.now },
    pub ghost table: { IsGuardTable ifr.now guards.now } by { IsGuardTable-prop ifr.now guards.now },
    pub ghost numbered: { AreNumbers (nodes_of ifr.now) numbers.items } by { AreNumbers-prop (nodes_of ifr.now) numbers.items },
}

impl<'s, 'a> GuardsAt<'s, 'a> {
    ghost use Rattle.std.specs.Iterator.{YieldsFirstBy};
    ghost use Rattle.ifr_scopes.specs.code.Lists.{guard_node, guard_package, guards_left};

    /// Goes to the next guard, as `next` does: one of the same package.
    pub fn step(&mut self) -> Option<Guard<'a>>
        ensures steps { YieldsFirstBy guard_node guards_left self.old result self.new }
        ensures of_package { IfSome result (λ guard. guard_package guard ≡ self.old.ifr.now) }
        ensures numbered { IfSome result (λ guard. is_some guard.number ≡ true) }
        ensures kept { self.new.ifr.now ≡ self.old.ifr.now }
    {
        let number = self.numbers.pop()?;
        let guard = Guard::kept(self.ifr, self.guards[number as usize]);
        Some(guard.numbered(number))
    }
}

impl<'s, 'a> Iterator for GuardsAt<'s, 'a> {
    ghost use Rattle.std.specs.Iterator.{YieldsFirstBy, item_count};
    ghost use Rattle.ifr_scopes.specs.code.Lists.{guard_node, guards_left};

    type Item = Guard<'a>;

    ghost next_gives = { YieldsFirstBy guard_node guards_left };

    ghost remaining = { item_count guards_left };

    fn next(&mut self) -> Option<Guard<'a>> {
        self.step()
    }
}

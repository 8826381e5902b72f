//! The guards at places, from the innermost outwards.

ghost use Rattle.std.specs.Prelude.{◌≡◌, ◌≤◌, IfSome, length, reverse};
ghost use Rattle.ifr_nodes.specs.Checked.{IsChecked};
ghost use Rattle.ifr_nodes.specs.Nodes.{nodes_of};
ghost use Rattle.ifr_nodes.specs.code.Checked.{IsChecked-prop};
ghost use Rattle.ifr_index.specs.code.Tables.{IsGuardTable, IsGuardTable-prop, IsNumber, IsNumber-prop, guards_from};

use crate::guard::Guard;
use crate::guards_at::GuardsAt;
use arrayvec::ArrayVec;
use ifr_index::GuardEntry;

/// The guards of a form, a statement or an option that are left, the innermost first.
#[derive(Clone, Copy)]
pub struct GuardsOutward<'s, 'a> {
    pub(crate) ifr: &'a [u8],
    pub(crate) guards: &'s [GuardEntry],
    // The number of the next guard.
    pub(crate) next: Option<u32>,
    pub ghost checked: { IsChecked ifr.now } by { IsChecked-prop ifr.now },
    pub ghost table: { IsGuardTable ifr.now guards.now } by { IsGuardTable-prop ifr.now guards.now },
    pub ghost few: { length (guards_from (nodes_of ifr.now) next) ≤ 64 },
    pub ghost numbered: { IsNumber (nodes_of ifr.now) next } by { IsNumber-prop (nodes_of ifr.now) next },
}

impl<'s, 'a> GuardsOutward<'s, 'a> {
    ghost use Rattle.std.specs.Iterator.{YieldsFirstBy};
    ghost use Rattle.ifr_scopes.specs.code.Lists.{guard_node, guard_package, guards_left, outward_left};

    /// Goes to the next guard, as `next` does: one of the same package.
    pub fn step(&mut self) -> Option<Guard<'a>>
        ensures steps { YieldsFirstBy guard_node outward_left self.old result self.new }
        ensures of_package { IfSome result (λ guard. guard_package guard ≡ self.old.ifr.now) }
        ensures numbered { IfSome result (λ guard. guard.number ≡ self.old.next) }
        ensures kept { self.new.ifr.now ≡ self.old.ifr.now }
    {
        let number = self.next?;
        let guard = self.guards[number as usize];
        let view = Guard::kept(self.ifr, guard);
        self.next = guard.outer;
        Some(view.numbered(number))
    }

    /// The same guards, the outermost first.
    pub(crate) fn outermost_first(self) -> GuardsAt<'s, 'a>
        ensures guards { guards_left result ≡ reverse (outward_left self.entry) }
        ensures of_package { result.ifr.now ≡ self.entry.ifr.now }
    {
        let mut numbers = ArrayVec::new();
        let mut next = self.next;
        while let Some(number) = next {
            numbers.push(number);
            next = self.guards[number as usize].outer;
        }
        GuardsAt {
            ifr: self.ifr,
            guards: self.guards,
            numbers,
        }
    }
}

impl<'s, 'a> Iterator for GuardsOutward<'s, 'a> {
    ghost use Rattle.std.specs.Iterator.{YieldsFirstBy, item_count};
    ghost use Rattle.ifr_scopes.specs.code.Lists.{guard_node, outward_left};

    type Item = Guard<'a>;

    ghost next_gives = { YieldsFirstBy guard_node outward_left };

    ghost remaining = { item_count outward_left };

    fn next(&mut self) -> Option<Guard<'a>> {
        self.step()
    }
}

//! What stands around forms, statements and options.

ghost use Rattle.std.specs.Prelude.{◌≡◌, option_and_then, option_map, reverse};
ghost use Rattle.ifr_index.specs.declared.index.Entry.{Entry};
ghost use Rattle.ifr_scopes.specs.code.Locked.{IsLockedPlace, IsLockedPlace-prop};

use crate::guards_outward::GuardsOutward;
use crate::locks::LockView;
use ifr_index::Entry;
use ifr_nodes::node_at;

/// What stands around a form, a statement or an option: its guards, and the LOCKED that decides for it.
#[derive(Clone, Copy)]
pub struct Around<'s, 'a> {
    pub(crate) guards: GuardsOutward<'s, 'a>,
    // The place of the LOCKED that decides, if it is locked.
    pub(crate) lock: Option<u32>,
    pub ghost locked: { IsLockedPlace guards.ifr.now lock } by { IsLockedPlace-prop guards.ifr.now lock },
}

impl<'s, 'a> Around<'s, 'a> {
    ghost use Rattle.ifr_scopes.specs.code.AroundViews.{around_guards, around_innermost, around_lock, around_package};
    ghost use Rattle.ifr_scopes.specs.code.Lists.{outward_left};
    ghost use Rattle.ifr_scopes.specs.code.LocksLeft.{lock_node};

    /// The guards, the innermost first.
    pub fn guards(self) -> GuardsOutward<'s, 'a>
        ensures guards { outward_left result ≡ reverse (around_guards self.entry) }
        ensures of_package { result.ifr.now ≡ around_package self.entry }
    {
        self.guards
    }

    /// The number of the innermost guard, if there is one: in one package the same number stands for the same guards.
    pub fn innermost(self) -> Option<u32>
        ensures { result ≡ around_innermost self.entry }
    {
        self.guards.next
    }

    /// The LOCKED that decides, if it is locked.
    #[inline(always)]
    pub fn lock(self) -> Option<LockView<'a>>
        ensures { option_map lock_node result ≡ around_lock self.entry }
    {
        let place = self.lock?;
        Some(LockView {
            node: node_at(self.guards.ifr, place),
        })
    }
}

/// The number of the innermost guard around what was looked up, if something was found and there is one.
pub(crate) fn guard_number(entry: Option<Entry>) -> Option<u32>
    ensures { result ≡ option_and_then (λ (e : Entry). e.guard) entry }
{
    entry?.guard
}

/// The place of the LOCKED that decides for what was looked up, if something was found and is locked.
pub(crate) fn lock_place(entry: Option<Entry>) -> Option<u32>
    ensures { result ≡ option_and_then (λ (e : Entry). e.lock) entry }
{
    entry?.lock
}

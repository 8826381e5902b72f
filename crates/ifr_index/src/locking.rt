//! Which LOCKED decides for each form, statement and option: one more walk, where something is locked.

ghost use Rattle.std.specs.Prelude.{◌≡◌, ℕ};
ghost use Rattle.std.specs.BTreeMap.{get};
ghost use Rattle.std.specs.Ordering.{nat_cmp};
ghost use Rattle.ifr_nodes.specs.Checked.{IsChecked};
ghost use Rattle.ifr_nodes.specs.Nodes.{nodes_of};
ghost use Rattle.ifr_index.specs.code.LockIndex.{first_place, first_some};
ghost use Rattle.ifr_index.specs.code.Tables.{entries_unlocked, entry_table};

use crate::index::Entry;
use crate::tables::is_indexed;
use ifr_nodes::ScopedNodes;
use std::collections::BTreeMap;

// What was found for the first of these places for which something was.
fn first_along(found: &BTreeMap<u32, u32>, places: &[u32]) -> Option<u32>
    ensures { result ≡ first_some (get nat_cmp found.now) places.now }
{
    for place in places {
        if let Some(lock) = found.get(place) {
            return Some(*lock);
        }
    }
    None
}

/// Gives forms, statements and options the LOCKED that decide for them, by the first directly in each scope.
pub(crate) fn lock_entries(ifr: &[u8], locks: &BTreeMap<u32, u32>, entries: &mut Vec<Entry>)
    requires checked { IsChecked ifr.now }
    requires found { (scope : ℕ) → get nat_cmp locks.now scope ≡ first_place (nodes_of ifr.now) scope }
    requires unlocked { entries.now.items ≡ entries_unlocked (nodes_of ifr.now) }
    ensures { entries.new.items ≡ entry_table (nodes_of ifr.now) }
{
    if locks.is_empty() {
        return;
    }
    let mut next = 0;
    let mut nodes = ScopedNodes::over(ifr);
    while let Some(met) = nodes.step() {
        if is_indexed(met.node.op().code) {
            let places = nodes.chain(&met);
            let entry = entries[next];
            entries[next] = Entry {
                place: entry.place,
                code: entry.code,
                guard: entry.guard,
                lock: first_along(locks, places.as_slice()),
            };
            next += 1;
        }
    }
}

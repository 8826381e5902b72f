//! Laws of the definitions of what is kept.
//!
//! Each but the last is a function without a body that nobody calls, and its contract a statement of `specs/laws`: why it is
//! enough to renew what a write touches, and why decisions by what is kept are those over the stores.

ghost use Rattle.std.specs.Prelude.{◌≡◌};
ghost use Rattle.kept_conditions.specs.Kept.{changed_to};
ghost use Rattle.kept_conditions.specs.laws.Tells.{KeptTells};
ghost use Rattle.kept_conditions.specs.laws.Writes.{ChangesAreWrites, LeavesUntouched, PutsAreWrites};

use crate::cache::KeptStores;

/// A write leaves the conditions as they were that it does not touch, whichever question the bytes were written for.
pub fn a_write_leaves_untouched_conditions()
    ensures { LeavesUntouched }
{}

/// What is kept over some stores tells of all conditions that may be kept.
pub fn what_is_kept_tells_of_the_stores()
    ensures { KeptTells }
{}

/// A put of bytes into a store is a write of as many bytes.
pub fn a_put_is_a_write()
    ensures { PutsAreWrites }
{}

/// A change to other stores of the same layout is a write of the bytes in which they differ.
pub fn a_change_is_a_write()
    ensures { ChangesAreWrites }
{}

/// Stores that take over what they hold stay as they are, with the number of conditions that were evaluated anew.
pub fn the_same_stores_renew_nothing(stores: &KeptStores<'_>)
    ensures { changed_to stores.now stores.now.stores ≡ stores.now }
{
    stores.renewed();
}

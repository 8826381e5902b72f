//! Sets of places of a forms package.

ghost use Rattle.std.specs.Prelude.{◌≡◌, ◌==◌, ◌||◌, ℕ, IfOk, OnOk, not};
ghost use Rattle.question_audit.specs.code.Places.{has_place};

use std::alloc::AllocError;
use std::collections::BTreeSet;

/// Adds a place, and tells whether it was not there.
pub fn add_place(places: &mut BTreeSet<u32>, place: u32) -> Result<bool, AllocError>
    ensures new { IfOk result (λ is_new. is_new ≡ not (has_place places.old place)) }
    ensures places { OnOk result ((other : ℕ)
        → has_place places.new other ≡ (place == other || has_place places.old other)) }
{
    let is_new = places.insert(place)?;
    Ok(is_new)
}

/// Whether a place is there.
pub fn has_place(places: &BTreeSet<u32>, place: u32) -> bool
    ensures { result ≡ has_place places.now place }
{
    places.contains(&place)
}

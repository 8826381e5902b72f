//! The conditions behind a place, looked for near a position.
//!
//! Who goes from question to question by place finds those of the next where the last were found, or one further.

ghost use Rattle.std.specs.Prelude.{◌≡◌, ◌+◌, ◌<◌, ◌≤◌, ℕ, true, nat_lt, filter, length, drop, slice_index_or};
ghost use Rattle.hii_bytes.specs.code.FirstFaults.{Rise};
ghost use Rattle.ifr_index.specs.declared.index.ConditionEntry.{ConditionEntry};

use ifr_index::{ConditionEntry, conditions_behind};

// Whether the condition at a position, if there is one, stands behind a place.
#[inline(always)]
fn stands_behind(conditions: &[ConditionEntry], place: u32, at: usize) -> bool
    ensures { result ≡ true → (d : ConditionEntry) → at < length conditions.now
        → place < (slice_index_or conditions.now at d).place }
{
    match conditions.get(at) {
        Some(next) => place < next.place,
        None => true,
    }
}

// Whether the condition before a position, if there is one, does not stand behind a place.
#[inline(always)]
fn stands_before(conditions: &[ConditionEntry], place: u32, at: usize) -> bool
    requires { at ≤ length conditions.now }
    ensures { result ≡ true → (d : ConditionEntry) (k : ℕ) → k + 1 ≡ at
        → (slice_index_or conditions.now k d).place ≤ place }
{
    if at == 0 {
        return true;
    }
    conditions[at - 1].place <= place
}

// Whether the conditions from a position on are those behind a place, if they rise.
#[inline(always)]
fn begins_behind(conditions: &[ConditionEntry], place: u32, at: usize) -> bool
    ensures within { result ≡ true → at ≤ length conditions.now }
    ensures behind { result ≡ true → (low : ℕ)
        → Rise (λ (c : ConditionEntry). c.place) low conditions.now
        → drop at conditions.now ≡ filter (λ c. nat_lt place c.place) conditions.now }
{
    if at > conditions.len() {
        return false;
    }
    if !stands_behind(conditions, place, at) {
        return false;
    }
    stands_before(conditions, place, at)
}

/// The conditions behind a place, which are looked for first at a position and behind it, and only then in a search.
#[inline(always)]
pub(crate) fn conditions_behind_near(
    conditions: &[ConditionEntry],
    place: u32,
    near: usize,
) -> &[ConditionEntry]
    ensures { (low : ℕ) → Rise (λ (c : ConditionEntry). c.place) low conditions.now
        → result.now ≡ filter (λ c. nat_lt place c.place) conditions.now }
{
    if begins_behind(conditions, place, near) {
        return &conditions[near..];
    }
    let next = near.saturating_add(1);
    if begins_behind(conditions, place, next) {
        return &conditions[next..];
    }
    conditions_behind(conditions, place)
}

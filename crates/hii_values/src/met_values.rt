//! Which of some values were met.

ghost use Rattle.std.specs.Prelude.{◌≡◌, length, take};
ghost use Rattle.std.specs.List.Sorted.{IsNonDecreasing, IsPermutation};
ghost use Rattle.hii_values.specs.code.ItemsLeft.{items_left};

use crate::items::Items;
use arrayvec::ArrayVec;

/// How many values are sought at most: so many elements has an ordered list at most (UEFI 2.8, 33.3.8.3,
/// EFI_IFR_ORDERED_LIST).
const MOST: usize = 255;

// The first of some items, of which at most 255 are taken.
fn first_values(items: Items<'_>) -> ArrayVec<u64, MOST>
    ensures { result.items ≡ take 255 (items_left items.entry) }
{
    let mut values = ArrayVec::new();
    for item in items {
        if values.is_full() {
            return values;
        }
        values.push(item);
    }
    values
}

// The same in rising order.
fn rising_values(items: Items<'_>) -> ArrayVec<u64, MOST>
    ensures rising { IsNonDecreasing result.items }
    ensures same { IsPermutation (take 255 (items_left items.entry)) result.items }
{
    let mut values = first_values(items);
    values.as_mut_slice().sort_unstable();
    values
}

/// Values that are sought, at most 255, and which of them were met. So one walk over the options of a question tells of each element
/// of a list whether an option has it.
#[derive(Drop)]
pub struct MetValues {
    // in rising order
    values: ArrayVec<u64, MOST>,
    // of the first of the values that are the same
    met: [bool; MOST],
    ghost rising: { IsNonDecreasing values.items },
    ghost all: { length met ≡ 255 },
}

impl MetValues {
    ghost use Rattle.std.specs.Prelude.{◌==◌, ◌&&◌, ◌||◌, ◌<◌, ℕ, Some, None, false, not, if◌then◌else◌, IfSome};
    ghost use Rattle.std.specs.List.{list_any};
    ghost use Rattle.hii_values.specs.code.MetValues.{first_from, is_sought, is_met};

    /// The values of some items are sought, of the first 255 where there are more, and none was met.
    pub fn of(items: Items<'_>) -> MetValues
        ensures sought { (v : ℕ) → is_sought result v
            ≡ list_any (λ item. item == v) (take 255 (items_left items.entry)) }
        ensures none { (v : ℕ) → is_met result v ≡ false }
    {
        let met = [false; MOST];
        let values = rising_values(items);
        MetValues { values, met }
    }

    // Where the first stands that is a value, if it is sought.
    fn find(&self, value: u64) -> Option<usize>
        ensures found { result ≡ (if is_sought self.now value
            then Some (first_from value self.now.values.items) else None) }
        ensures within { IfSome result (λ at. at < 255) }
    {
        let values = self.values.as_slice();
        let at = values.partition_point(|other| *other < value);
        if at < values.len() && values[at] == value {
            Some(at)
        } else {
            None
        }
    }

    /// Meets a value: it was met from now on, where it is sought.
    pub fn meet(&mut self, value: u64)
        ensures sought { (v : ℕ) → is_sought self.new v ≡ is_sought self.old v }
        ensures met { (v : ℕ) → is_met self.new v
            ≡ (is_met self.old v || (is_sought self.old v && (value == v))) }
    {
        if let Some(at) = self.find(value) {
            self.met[at] = true;
        }
    }

    /// Whether a value is sought and was met.
    pub fn has_met(&self, value: u64) -> bool
        ensures { result ≡ is_met self.now value }
    {
        match self.find(value) {
            Some(at) => self.met[at],
            None => false,
        }
    }

    /// Whether a value is sought and was not met.
    pub fn lacks(&self, value: u64) -> bool
        ensures { result ≡ (is_sought self.now value && not (is_met self.now value)) }
    {
        match self.find(value) {
            Some(at) => !self.met[at],
            None => false,
        }
    }
}

//! Bytes in which two sets of stores of a layout differ.

ghost use Rattle.std.specs.Prelude.{◌≡◌, ◌+◌, ◌≤◌, ◌&&◌, true, nat_lt, length, min};
ghost use Rattle.hii_varstore.specs.Stores.{shape_of};
ghost use Rattle.kept_conditions.specs.Touching.{difference, has_one, range_of};
ghost use Rattle.kept_conditions.specs.code.Invalidation.{common, other_at, NoneWithin, IsFirstFrom, IsFirstFrom-prop};

use hii_questions::FieldRange;
use hii_varstore::Stores;

/// How many bytes are compared at once.
const BLOCK: usize = 64;

// ---- of two stores

// An offset from one on up to which two stores of one size are the same, by whole blocks that end before another.
fn behind_same_blocks(old: &[u8], new: &[u8], from: usize, end: usize) -> usize
    requires same { length old.now ≡ length new.now }
    requires inside { end ≤ length old.now }
    ensures from { from ≤ result }
    ensures none { NoneWithin (other_at old.now new.now 0) from result }
{
    let mut at = from;
    while BLOCK <= end.saturating_sub(at) && old[at..at + BLOCK] == new[at..at + BLOCK] {
        at += BLOCK;
    }
    at
}

// The first offset from one on up to before another at which two stores of one size differ, if there is one.
fn first_difference(old: &[u8], new: &[u8], from: usize, end: usize) -> Option<usize>
    requires same { length old.now ≡ length new.now }
    requires inside { end ≤ length old.now }
    ensures { IsFirstFrom (λ at. nat_lt at end && other_at old.now new.now 0 at) from result }
{
    for at in behind_same_blocks(old, new, from, end)..end {
        if old[at] != new[at] {
            return Some(at);
        }
    }
    None
}

// ---- of two sets of stores

// The first offset of a store from one on at which two sets of stores of a layout differ, if there is one.
fn first_difference_in(old: &Stores, new: &Stores, store: u16, from: usize) -> Option<usize>
    requires { shape_of old.now ≡ shape_of new.now }
    ensures { IsFirstFrom (difference old.now new.now store) from result }
{
    match (old.bytes(store), new.bytes(store)) {
        (Some(old), Some(new)) => first_difference(old, new, from, old.len()),
        _ => None,
    }
}

// The end of a range in a store of so many bytes, as far as it has them.
fn end_within(len: usize, range: FieldRange) -> usize
    ensures { result ≡ min (range.offset + range.width) len }
{
    usize::from(range.offset)
        .saturating_add(range.width)
        .min(len)
}

/// Whether two sets of stores of a layout differ in one of the bytes of a field that lie within a range.
pub(crate) fn differ(old: &Stores, new: &Stores, field: FieldRange, within: FieldRange) -> bool
    requires { shape_of old.now ≡ shape_of new.now }
    ensures { result ≡ has_one
        (common (difference old.now new.now) (range_of within.store within.offset within.width))
        field.store field.offset field.width }
{
    if field.store != within.store {
        return false;
    }
    match (old.bytes(field.store), new.bytes(field.store)) {
        (Some(old), Some(new)) => {
            let from = field.offset.max(within.offset);
            let end = end_within(old.len(), field).min(end_within(old.len(), within));
            first_difference(old, new, usize::from(from), end).is_some()
        }
        _ => false,
    }
}

/// The bytes in which two sets of stores of a layout differ, asked by fields. Those that are asked in the order in which
/// they begin cost one walk over the stores.
#[derive(Clone, Copy)]
pub(crate) struct Differences<'s> {
    pub(crate) one: &'s Stores,
    pub(crate) other: &'s Stores,
    store: u16,
    from: usize,
    // The first offset of the store from there on at which they differ, if there is one.
    next: Option<usize>,
    pub ghost same: { shape_of one.now ≡ shape_of other.now },
    pub ghost first: { IsFirstFrom (difference one.now other.now store) from next } by { IsFirstFrom-prop (difference one.now other.now store) from next },
}

impl<'s> Differences<'s> {
    /// The bytes in which these stores differ.
    pub(crate) fn between(one: &'s Stores, other: &'s Stores) -> Differences<'s>
        requires { shape_of one.now ≡ shape_of other.now }
        ensures one { result.one.now ≡ one.now }
        ensures other { result.other.now ≡ other.now }
    {
        Differences {
            one,
            other,
            store: 0,
            from: 0,
            next: first_difference_in(one, other, 0, 0),
        }
    }

    // Whether the next difference is also the first of a store from an offset on.
    fn is_first_from(&self, store: u16, offset: usize) -> bool
        ensures { result ≡ true
            → IsFirstFrom (difference self.now.one.now self.now.other.now store) offset self.now.next }
    {
        if store != self.store || offset < self.from {
            return false;
        }
        match self.next {
            Some(next) => offset <= next,
            None => true,
        }
    }

    // The first offset of a store from one on at which the stores differ, if there is one.
    fn first_from(&mut self, store: u16, offset: usize) -> Option<usize>
        ensures first { IsFirstFrom (difference self.old.one.now self.old.other.now store) offset result }
        ensures one { self.new.one.now ≡ self.old.one.now }
        ensures other { self.new.other.now ≡ self.old.other.now }
    {
        if !self.is_first_from(store, offset) {
            *self = Differences {
                one: self.one,
                other: self.other,
                store,
                from: offset,
                next: first_difference_in(self.one, self.other, store, offset),
            };
        }
        self.next
    }

    /// Whether the stores differ in one of the bytes of a field.
    pub(crate) fn are_in(&mut self, field: FieldRange) -> bool
        ensures differ { result ≡ has_one (difference self.old.one.now self.old.other.now)
            field.store field.offset field.width }
        ensures one { self.new.one.now ≡ self.old.one.now }
        ensures other { self.new.other.now ≡ self.old.other.now }
    {
        let offset = usize::from(field.offset);
        match self.first_from(field.store, offset) {
            Some(next) => next - offset < field.width,
            None => false,
        }
    }
}

//! What is found by ids of 16 bits.

ghost use Rattle.std.specs.Prelude.{◌≡◌, ◌<◌, ◌==◌, ℕ, true, Some, IfOk, length, slice_index_or};
ghost use Rattle.std.specs.List.{find};
ghost use Rattle.std.specs.List.Sorted.{IsSortedByKey};
ghost use Rattle.std.specs.Ordering.{nat_cmp};
ghost use Rattle.hii_bytes.specs.code.IdTables.{number_with};
ghost use Rattle.hii_bytes.specs.declared.id_table.IdEntry.{IdEntry};

use std::alloc::{AllocError, Global};
use std::marker::Model;

/// An id, and the number that is kept with it.
#[derive(Clone, Copy)]
pub struct IdEntry {
    pub id: u16,
    pub number: u32,
}

/// Numbers by ids of 16 bits, in a sorted list that is searched by halves (own rule). It is seen as this list.
#[derive(Drop)]
pub struct IdTable {
    entries: Vec<IdEntry>,
}

impl Model for IdTable {
    ghost use Rattle.std.specs.Prelude.{List};
    ghost use Rattle.std.specs.List.Sorted.{IsSortedByKey};
    ghost use Rattle.std.specs.Ordering.{nat_cmp};
    ghost use Rattle.hii_bytes.specs.declared.id_table.IdEntry.{IdEntry};

    ghost Value = { List IdEntry };

    ghost view = { λ t. t.entries.items };

    ghost invariant = { λ t. IsSortedByKey (λ (e : IdEntry). e.id) nat_cmp t.entries.items };
}

// Where an entry of an id stands if there is one of each id from the first on.
fn likely_index(entries: &[IdEntry], id: u16) -> usize {
    match entries.first() {
        Some(first) => usize::from(id.saturating_sub(first.id)),
        None => 0,
    }
}

// Whether the first entry of an id stands at an index.
fn begins_at(entries: &[IdEntry], index: usize, id: u16) -> bool
    requires { IsSortedByKey (λ (e : IdEntry). e.id) nat_cmp entries.now }
    ensures within { result ≡ true → index < length entries.now }
    ensures first { result ≡ true → (d : IdEntry) → find (λ (e : IdEntry). e.id == id) entries.now
        ≡ Some (slice_index_or entries.now index d) }
{
    if index >= entries.len() {
        return false;
    }
    if entries[index].id != id {
        return false;
    }
    index == 0 || entries[index - 1].id < id
}

// The number of the first entry of an id.
fn first_number(entries: &[IdEntry], id: u16) -> Option<u32>
    requires { IsSortedByKey (λ (e : IdEntry). e.id) nat_cmp entries.now }
    ensures { result ≡ number_with entries.now id }
{
    let likely = likely_index(entries, id);
    if begins_at(entries, likely, id) {
        return Some(entries[likely].number);
    }
    let first = entries.partition_point(|entry| entry.id < id);
    if first < entries.len() && entries[first].id == id {
        return Some(entries[first].number);
    }
    None
}

impl IdTable {
    /// The table of these entries. Of those of one id the first counts.
    pub fn of(entries: Vec<IdEntry>) -> Result<IdTable, AllocError>
        ensures { IfOk result (λ table. (id : ℕ)
            → number_with table id ≡ number_with entries.items id) }
    {
        let mut entries = entries;
        entries.sort_by_key(|entry| entry.id)?;
        Ok(IdTable { entries })
    }

    /// A second table of the same.
    pub fn copy(&self, alloc: Global) -> Result<IdTable, AllocError>
        ensures { IfOk result (λ table. table ≡ self.now) }
    {
        let entries = Vec::from_slice(alloc, &self.entries)?;
        Ok(IdTable { entries })
    }

    /// The number that is kept with an id, if one is.
    pub fn find(&self, id: u16) -> Option<u32>
        ensures { result ≡ number_with self.now id }
    {
        first_number(&self.entries, id)
    }
}

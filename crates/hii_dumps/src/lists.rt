//! The lists of a dump, one after the other.

ghost use Rattle.std.specs.Prelude.{◌≡◌, ◌+◌, ◌<◌, ◌^◌, ◌++◌, ◌∷◌, length};
ghost use Rattle.hii_dumps.specs.Dumps.{IsList, placed};
ghost use Rattle.hii_dumps.specs.code.Lists.{AreLists, lists_of};

use hii_bytes::u32_at;
use std::marker::Model;

/// A package list in a dump: its place in bytes from the dump's first one, and its bytes.
#[derive(Clone, Copy)]
pub struct DumpedList<'a> {
    /// The place in the dump.
    pub place: u64,
    /// As many bytes as its header states.
    pub bytes: &'a [u8],
}

/// The lists that are left of a dump, seen as a list of entries.
#[derive(Drop)]
pub struct Lists<'a> {
    rest: &'a [u8],
    place: u64,
}

impl<'a> Model for Lists<'a> {
    ghost use Rattle.std.specs.Prelude.{List, ◌+◌, ◌<◌, ◌^◌, length};
    ghost use Rattle.hii_dumps.specs.Dumps.{Entry, placed};
    ghost use Rattle.hii_dumps.specs.code.Lists.{AreLists, lists_of};

    ghost Value = { List Entry };

    ghost view = { λ s. placed s.place (lists_of s.rest.now) };

    ghost invariant = { λ s. AreLists s.rest.now × (s.place + length s.rest.now < 2 ^ 64) };
}

impl<'a> Lists<'a> {
    // The lists that these bytes are, of which the first has this place in the dump.
    pub(crate) fn from(rest: &'a [u8], place: u64) -> Lists<'a>
        requires lists { AreLists rest.now }
        requires in_dump { place + length rest.now < 2 ^ 64 }
        ensures { result ≡ placed place (lists_of rest.entry.now) }
    {
        Lists { rest, place }
    }
}

// The first of some lists, and the bytes after it.
fn split_first(rest: &[u8]) -> (&[u8], &[u8])
    requires lists { AreLists rest.now }
    requires some { 0 < length rest.now }
    ensures first { IsList result.0.now }
    ensures after { AreLists result.1.now }
    ensures whole { rest.now ≡ result.0.now ++ result.1.now }
    ensures lists { lists_of rest.now ≡ result.0.now ∷ lists_of result.1.now }
{
    let size = u32_at(rest, 16).unwrap() as usize;
    rest.split_at(size)
}

impl<'a> Iterator for Lists<'a> {
    ghost use Rattle.std.specs.Iterator.{YieldsFirstBy, item_count};
    ghost use Rattle.hii_dumps.specs.code.Lists.{entry_of};

    type Item = DumpedList<'a>;

    ghost next_gives = { YieldsFirstBy entry_of (λ left. left) };

    ghost remaining = { item_count (λ left. left) };

    fn next(&mut self) -> Option<DumpedList<'a>> {
        if self.rest.is_empty() {
            return None;
        }
        let (bytes, rest) = split_first(self.rest);
        let list = DumpedList {
            place: self.place,
            bytes,
        };
        self.place += bytes.len() as u64;
        self.rest = rest;
        Some(list)
    }
}

//! A dump of package lists, cut into these and a rest.

ghost use Rattle.std.specs.Prelude.{◌≡◌, length, option_map, true, SomeIff};
ghost use Rattle.std.specs.List.{concat};
ghost use Rattle.hii_dumps.specs.Dumps.{SpellsDump, stated_length, begins_with_list, nth_list, placed};
ghost use Rattle.hii_dumps.specs.code.Lists.{entry_of};

use crate::lists::{DumpedList, Lists};
use hii_bytes::u32_at;
use std::marker::Model;

/// A dump, seen as its lists and its rest.
#[derive(Drop)]
pub struct Dump<'a> {
    lists: &'a [u8],
    rest: &'a [u8],
}

impl<'a> Model for Dump<'a> {
    ghost use Rattle.std.specs.Prelude.{◌<◌, ◌^◌, length};
    ghost use Rattle.hii_dumps.specs.Dumps.{Parts};
    ghost use Rattle.hii_dumps.specs.code.Lists.{AreLists, lists_of};

    ghost Value = { Parts };

    ghost view = { λ s. record { lists = lists_of s.lists.now; rest = s.rest.now } };

    ghost invariant = { λ s. AreLists s.lists.now × (length s.lists.now < 2 ^ 63) };
}

impl<'a> Dump<'a> {
    /// The lists at the front of a dump, each as long as its header states (at least 20 bytes, and no more than are left); the
    /// rest begins where there is no such header. No byte is refused: of what the lists are nothing is asked (UEFI 2.8, 34.8,
    /// ExportPackageLists).
    pub fn read(dump: &'a [u8]) -> Dump<'a>
        ensures { SpellsDump dump.now result.lists result.rest }
    {
        let mut end = 0;
        while let Some(length) = list_length(&dump[end..]) {
            end += length;
        }
        Dump {
            lists: &dump[..end],
            rest: &dump[end..],
        }
    }

    /// The lists in order, at their places in bytes from the dump's first one.
    pub fn lists(&self) -> Lists<'a>
        ensures { result ≡ placed 0 self.now.lists }
    {
        Lists::from(self.lists, 0)
    }

    /// The list of a number, counted from 1.
    pub fn list(&self, number: u64) -> Option<DumpedList<'a>>
        ensures { option_map entry_of result ≡ nth_list self.now.lists number }
    {
        let before = number.checked_sub(1)?;
        self.lists().nth(before as usize)
    }

    /// The bytes behind the last list.
    pub fn rest(&self) -> &'a [u8]
        ensures { result.now ≡ self.now.rest }
    {
        self.rest
    }

    /// The place of the rest, in bytes from the dump's first one.
    pub fn rest_place(&self) -> u64
        ensures { result ≡ length (concat self.now.lists) }
    {
        self.lists.len() as u64
    }
}

// The length of the list at the front of some bytes, if one stands there.
fn list_length(bytes: &[u8]) -> Option<usize>
    ensures { SomeIff result (begins_with_list bytes.now ≡ true) (stated_length bytes.now) }
{
    let length = u32_at(bytes, 16)? as usize;
    (20 <= length && length <= bytes.len()).then_some(length)
}

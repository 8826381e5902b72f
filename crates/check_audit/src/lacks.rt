//! Which texts of the first string package further ones lack.

ghost use Rattle.std.specs.Prelude.{◌≡◌, ◌++◌, ◌<◌, ◌^◌, [], IfOk, IfErr, OnOk, map, option_map, slice_get, unwrap_or};
ghost use Rattle.std.specs.List.{count_by};
ghost use Rattle.browser_rules.specs.Faults.{string_faults};
ghost use Rattle.browser_rules.specs.Packages.{list_length};
ghost use Rattle.hii_bytes.specs.Faults.{RefusesAmong};
ghost use Rattle.sibt_strings.specs.Shared.{every_id, has_text};
ghost use Rattle.check_audit.specs.Lacks as spec;
ghost use Rattle.check_audit.specs.Lacks.{lacks_in, language_warnings};
ghost use Rattle.check_audit.specs.code.Lacking.{lack_seen, lacks_behind};

use crate::textless::HEADER;
use crate::warning::{Oddity, Warning};
use hii_bytes::Fault;
use hii_packages::{PackageList, STRINGS};
use sibt_strings::StringTable;
use std::alloc::{AllocError, Global};
use std::marker::Model;

/// A string package that lacks texts of the first one.
#[derive(Clone, Copy)]
pub(crate) struct Lack<'a> {
    pub language: &'a [u8],
    /// The language of the first one.
    pub first: &'a [u8],
    /// How many texts of the first one it lacks.
    pub lacks: usize,
    /// How many texts the first one has.
    pub texts: usize,
}

// The first string package, seen as what it says, and how many texts it has.
#[derive(Drop)]
struct First<'a> {
    table: StringTable<'a>,
    texts: usize,
}

impl<'a> Model for First<'a> {
    ghost use Rattle.std.specs.Prelude.{◌≡◌};
    ghost use Rattle.std.specs.List.{count_by};
    ghost use Rattle.browser_rules.specs.Strings.{Spoken};
    ghost use Rattle.sibt_strings.specs.Shared.{every_id, has_text};

    ghost Value = { Spoken };

    ghost view = { λ s. s.table };

    ghost invariant = { λ s. s.texts ≡ count_by (has_text s.table) every_id };
}

impl<'a> First<'a> {
    // The first string package, of which this is the table.
    fn of(table: StringTable<'a>) -> First<'a>
        ensures { result ≡ table.entry }
    {
        let texts = table.texts_in_both(&table);
        First { table, texts }
    }

    // What another one lacks. It looks at the texts of that one.
    fn shortage_of(&self, other: &StringTable<'a>) -> Lack<'a>
        ensures { lack_seen result ≡ spec.shortage_of self.now other.now }
    {
        Lack {
            language: other.language(),
            first: self.table.language(),
            lacks: self.texts - other.texts_in_both(&self.table),
            texts: self.texts,
        }
    }
}

// Adds what a string package behind the first lacks, and gives the first one, which this one is where there was none.
fn with_table<'a>(
    first: Option<First<'a>>,
    table: StringTable<'a>,
    lacks: &mut Vec<Lack<'a>>,
) -> Result<First<'a>, AllocError>
    ensures first { IfOk result (λ found. found ≡ unwrap_or first.entry table.entry) }
    ensures added { OnOk result (map lack_seen lacks.new.items
        ≡ map lack_seen lacks.old.items ++ lacks_behind first.entry table.entry) }
{
    let Some(first) = first else {
        return Ok(First::of(table));
    };
    let lack = first.shortage_of(&table);
    if lack.lacks > 0 {
        lacks.push(lack)?;
    }
    Ok(first)
}

/// The string packages of a list that lack texts of the first one, seen as these, in the order of the list.
#[derive(Drop)]
pub(crate) struct Lacks<'a> {
    all: Vec<Lack<'a>>,
}

impl<'a> Model for Lacks<'a> {
    ghost use Rattle.std.specs.Prelude.{◌<◌, ◌^◌, List, length, map};
    ghost use Rattle.check_audit.specs.Lacks as spec;
    ghost use Rattle.check_audit.specs.code.Lacking.{lack_seen};

    ghost Value = { List spec.Lack };

    ghost view = { λ s. map lack_seen s.all.items };

    ghost invariant = { λ s. length s.all.items < 2 ^ 32 };
}

impl<'a> Lacks<'a> {
    /// Reads each string package of a list, in memory for the texts of two at most; or gives the least fault of the first that has
    /// one, or OutOfMemory (60) at 0 where an allocation fails.
    pub(crate) fn read(alloc: Global, list: &PackageList<'a>) -> Result<Lacks<'a>, Fault>
        requires { list_length list.now < 2 ^ 32 }
        ensures read { IfOk result (λ lacks. lacks ≡ lacks_in list.now) }
        ensures sound { IfOk result (λ _. string_faults list.now ≡ []) }
        ensures refused { IfErr result (RefusesAmong (string_faults list.now)) }
    {
        let mut all = Vec::new(alloc);
        let mut first = None;
        for source in list.packages() {
            if source.kind == STRINGS {
                let table = StringTable::of_package(alloc, source)?;
                first = Some(with_table(first, table, &mut all)?);
            }
        }
        Ok(Lacks { all })
    }

    /// One of them, by its number.
    pub(crate) fn get(&self, number: u32) -> Option<Lack<'a>>
        ensures { option_map lack_seen result ≡ slice_get self.now number }
    {
        self.all.get(number as usize).copied()
    }

    /// Adds each of them, at the FORM_SET.
    pub(crate) fn add(&self, warnings: &mut Vec<Warning>) -> Result<(), AllocError>
        ensures { OnOk result (warnings.new.items ≡ warnings.old.items ++ language_warnings self.now) }
    {
        let mut number = 0;
        for _ in self.all.as_slice() {
            warnings.push(Warning {
                place: HEADER as u32,
                oddity: Oddity::Language(number),
            })?;
            number += 1;
        }
        Ok(())
    }
}

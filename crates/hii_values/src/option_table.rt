//! The options of questions that have many, by their values.

ghost use Rattle.std.specs.Prelude.{◌≡◌, ◌++◌, ◌≤◌, true, false, OnOk, filter, length, map};
ghost use Rattle.std.specs.List.Sorted.{IsPartitionPoint, IsPartitionedBy};
ghost use Rattle.ifr_opcodes.specs.Forest.{Node};
ghost use Rattle.ifr_nodes.specs.Nodes.{options};
ghost use Rattle.ifr_nodes.specs.code.Checked.{IsNodeOf};
ghost use Rattle.ifr_scopes.specs.code.Lists.{statement_node};
ghost use Rattle.hii_values.specs.code.OptionPlaces.{IsByValue, ValuesRise, has_value_at, is_up_to, value_at};

use crate::elements::number_width;
use hii_bytes::number_at;
use ifr_opcodes::TYPE_BOOLEAN;
use ifr_scopes::{Forms, Statement};
use std::alloc::{AllocError, Global};
use std::marker::Model;

/// How many options are so few that each is looked at.
pub const FEW_OPTIONS: usize = 8;

/// Which of the places of options are those of a question.
#[derive(Clone, Copy)]
pub(crate) struct OptionBlock {
    // The place of the question.
    pub(crate) question: u32,
    pub(crate) first: usize,
    pub(crate) end: usize,
}

/// The options of questions that have many, by their values, of a package that is accepted. It is seen as the package.
pub struct OptionTable<'a> {
    ifr: &'a [u8],
    // By place.
    blocks: Vec<OptionBlock>,
    // The places of the options: those of each block by value, and those of one value by place.
    places: Vec<u32>,
}

impl<'a> Drop for OptionTable<'a> {
    fn drop(self) {
        let OptionTable {
            ifr: _,
            blocks: _,
            places: _,
        } = self;
    }
}

impl<'a> Model for OptionTable<'a> {
    ghost use Rattle.std.specs.Prelude.{ℕ, List};
    ghost use Rattle.hii_values.specs.code.OptionTables.{HoldsOptions};

    ghost Value = { List ℕ };

    ghost view = { λ t. t.ifr.now };

    ghost invariant = { λ t. HoldsOptions t.ifr.now t.blocks.items t.places.items };
}

/// Those options of a question that have a value.
#[derive(Clone, Copy)]
pub struct OptionsFound<'s> {
    /// Their places, which rise, in bytes from the package's header.
    pub places: &'s [u32],
    /// How many options of the question have lower values.
    pub before: usize,
}

// The value of the option that stands at a place of a package, in bytes from the package's header; some number where none stands
// there.
#[inline(always)]
fn value_at(ifr: &[u8], place: u32) -> u64
    ensures { result ≡ value_at ifr.now place }
{
    let at = place as usize;
    let Some(kind) = ifr.get(at + 5) else {
        return 0;
    };
    if *kind > TYPE_BOOLEAN {
        return 0;
    }
    number_at(ifr, at + 6, number_width(*kind)).unwrap_or(0)
}

// Whether the option at a place has at most a value.
#[inline(always)]
fn is_up_to(ifr: &[u8], value: u64, place: u32) -> bool
    ensures { result ≡ is_up_to ifr.now value place }
{
    value_at(ifr, place).cmp(&value).is_le()
}

// How many of the options at some places have at most a value: those at the front, of which there is mostly one.
fn count_up_to(ifr: &[u8], value: u64, places: &[u32]) -> usize
    requires { IsPartitionedBy (is_up_to ifr.now value) places.now }
    ensures bound { result ≤ length places.now }
    ensures point { IsPartitionPoint (λ p. is_up_to ifr.now value p ≡ true)
        (λ p. is_up_to ifr.now value p ≡ false) places.now result }
{
    if places.len() > 1 && is_up_to(ifr, value, places[1]) {
        return places.partition_point(|place| is_up_to(ifr, value, *place));
    }
    if places.len() > 0 && is_up_to(ifr, value, places[0]) {
        return 1;
    }
    0
}

// Those of the options at some places that have a value.
fn found_among<'s>(ifr: &[u8], value: u64, places: &'s [u32]) -> OptionsFound<'s>
    requires { ValuesRise ifr.now places.now }
    ensures { result.places.now ≡ filter (has_value_at ifr.now value) places.entry.now }
{
    let before = places.partition_point(|place| value_at(ifr, *place).cmp(&value).is_lt());
    let from = &places[before..];
    OptionsFound {
        places: &from[..count_up_to(ifr, value, from)],
        before,
    }
}

// Adds the places of the options of a question.
fn add_places(
    places: &mut Vec<u32>,
    forms: &Forms<'_>,
    question: Statement<'_>,
) -> Result<(), AllocError>
    requires { IsNodeOf forms.now (statement_node question) }
    ensures { OnOk result (places.new.items ≡ places.old.items
        ++ map (λ (o : Node). o.place) (options (statement_node question.entry))) }
{
    for option in forms.options_of(question) {
        places.push(option.place())?;
    }
    Ok(())
}

// Puts the places of options into the order of their values.
fn order(alloc: Global, ifr: &[u8], places: &mut [u32]) -> Result<(), AllocError>
    ensures { OnOk result (IsByValue ifr.now places.old places.new) }
{
    if places.is_sorted_by_key(|place| value_at(ifr, *place)) {
        return Ok(());
    }
    places.sort_by_key(alloc, |place| value_at(ifr, *place))?;
    Ok(())
}

impl<'a> OptionTable<'a> {
    ghost use Rattle.std.specs.Prelude.{IfOk, IfSome};
    ghost use Rattle.ifr_nodes.specs.Accepted.{IsAccepted};
    ghost use Rattle.ifr_nodes.specs.code.Checked.{node_in};
    ghost use Rattle.hii_values.specs.code.OptionPlaces.{AreWithValue};

    /// The table of no question of a package that is accepted.
    pub fn new(alloc: Global, ifr: &'a [u8]) -> OptionTable<'a>
        requires { IsAccepted ifr.now }
        ensures { result ≡ ifr.entry.now }
    {
        OptionTable {
            ifr,
            blocks: Vec::new(alloc),
            places: Vec::new(alloc),
        }
    }

    /// The table with a further question of the package, where it has many options. It stands behind those that are in the table.
    pub fn add(
        self,
        alloc: Global,
        forms: &Forms<'_>,
        question: Statement<'_>,
    ) -> Result<OptionTable<'a>, AllocError>
        requires same { self ≡ forms.now }
        requires node { IsNodeOf forms.now (statement_node question) }
        ensures { IfOk result (λ table. table ≡ self.entry) }
    {
        let OptionTable {
            ifr,
            mut blocks,
            mut places,
        } = self;
        let first = places.len();
        add_places(&mut places, forms, question)?;
        let end = places.len();
        if end - first <= FEW_OPTIONS {
            places.truncate(first);
            return Ok(OptionTable {
                ifr,
                blocks,
                places,
            });
        }
        order(alloc, ifr, &mut places[first..])?;
        blocks.push(OptionBlock {
            question: question.place(),
            first,
            end,
        })?;
        Ok(OptionTable {
            ifr,
            blocks,
            places,
        })
    }

    /// The options of the question at a place that have a value, where the table has the question.
    #[inline(always)]
    pub fn with(&self, question: u32, value: u64) -> Option<OptionsFound<'_>>
        ensures { IfSome result (λ found. AreWithValue self.now
            (node_in self.now question) value found.places.now) }
    {
        if self.blocks.is_empty() {
            return None;
        }
        self.search(question, value)
    }

    // The same, by a search.
    #[inline(never)]
    fn search(&self, question: u32, value: u64) -> Option<OptionsFound<'_>>
        ensures { IfSome result (λ found. AreWithValue self.now
            (node_in self.now question) value found.places.now) }
    {
        match self
            .blocks
            .binary_search_by_key(&question, |block| block.question)
        {
            Ok(at) => {
                let block = self.blocks[at];
                let places = &self.places[block.first..block.end];
                Some(found_among(self.ifr, value, places))
            }
            Err(_) => None,
        }
    }
}

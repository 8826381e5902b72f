//! The places of the texts of string ids, gathered in a walk over blocks.

ghost use Rattle.std.specs.Prelude.{◌+◌, ◌<◌, ◌^◌, ℕ, List, [], ◌∷◌, ◌++◌, Option, Some, length, IfOk, IfErr, OnOk};
ghost use Rattle.browser_rules.specs.Strings.{cut_texts};
ghost use Rattle.sibt_strings.specs.code.Blocks as spec;
ghost use Rattle.sibt_strings.specs.code.Views.{EndsWith, HoldsBlocks, IsBlockFault};
ghost use Rattle.sibt_strings.specs.code.Table.{text_of_place, IsNext, IsTabled, Adds, HasTable, Steps, StepsTo};

use crate::front::{Head, head_at, split_text};
use crate::place::{TextPlace, place_at};
use hii_bytes::{Cause, Fault};
use std::alloc::{AllocError, Global};

/// The places of the texts so far, in the order of the ids that have one, and the next id, if a number of 16 bits
/// names it.
#[derive(Drop)]
struct TextPlaces {
    places: Vec<TextPlace>,
    next: Option<u16>,
}

/// What a step over the front of the bytes of blocks comes to.
#[derive(Clone, Copy)]
enum Step<'a> {
    End,
    /// The bytes behind a whole block.
    Behind(&'a [u8]),
    Bad(Cause),
}

// The id that is so many behind one, if a number of 16 bits names it.
fn id_behind(next: Option<u16>, count: u16) -> Option<u16>
    ensures { (id : ℕ) → IsNext next id → IsNext result (id + count) }
{
    next?.checked_add(count)
}

impl TextPlaces {
    fn new(alloc: Global) -> TextPlaces
        ensures { (bytes : List ℕ) → IsTabled bytes [] result.next result.places.items }
    {
        TextPlaces {
            places: Vec::new(alloc),
            next: Some(1),
        }
    }

    // So many ids have no text.
    fn skip(&mut self, count: u16)
        ensures { (bytes : List ℕ) → Adds bytes (spec.Skip count) self.old self.new }
    {
        self.next = id_behind(self.next, count);
    }

    // The next id has the text at a place. Ids past 65,535 have no name.
    fn add(&mut self, place: u32) -> Result<(), AllocError>
        ensures { OnOk result ((bytes : List ℕ) (texts : List (Option (List ℕ)))
            → IsTabled bytes texts self.old.next self.old.places.items
            → IsTabled bytes (texts ++ text_of_place bytes (Some place) ∷ [])
            self.new.next self.new.places.items) }
    {
        if let Some(id) = self.next {
            self.places.push(TextPlace { id, place })?;
            self.next = id_behind(self.next, 1);
        }
        Ok(())
    }

    // The next ids have so many texts, which stand at the front of bytes at the end of the blocks.
    fn add_texts<'a>(
        &mut self,
        blocks: &[u8],
        count: u16,
        texts: &'a [u8],
    ) -> Result<Step<'a>, AllocError>
        requires small { length blocks.now < 2 ^ 24 }
        requires inside { EndsWith blocks.now texts.now }
        ensures steps { IfOk result (λ step. Steps blocks.now
            (spec.texts_block (cut_texts count texts.entry.now)) step self.old self.new) }
        ensures inside { IfOk result (StepsTo (EndsWith texts.entry.now)) }
    {
        let mut rest = texts;
        for _ in 0..count {
            let Some((_, behind)) = split_text(rest) else {
                return Ok(Step::Bad(Cause::StringText));
            };
            self.add((blocks.len() - rest.len()) as u32)?;
            rest = behind;
        }
        Ok(Step::Behind(rest))
    }

    // The next id has the text of another, if that has one so far.
    fn add_duplicate(&mut self, other: u16) -> Result<(), AllocError>
        ensures { OnOk result ((bytes : List ℕ)
            → Adds bytes (spec.Duplicate other) self.old self.new) }
    {
        match place_at(&self.places, other) {
            Some(place) => self.add(place),
            None => {
                self.skip(1);
                Ok(())
            }
        }
    }

    // Adds the places of the texts of the block at the front of the rest of the blocks.
    fn add_front<'a>(&mut self, blocks: &[u8], rest: &'a [u8]) -> Result<Step<'a>, AllocError>
        requires small { length blocks.now < 2 ^ 24 }
        requires inside { EndsWith blocks.now rest.now }
        ensures steps { IfOk result (λ step. Steps blocks.now
            (spec.front_of rest.entry.now) step self.old self.new) }
        ensures inside { IfOk result (StepsTo (EndsWith rest.entry.now)) }
        ensures shorter { IfOk result (StepsTo (λ behind.
            length behind < length rest.entry.now)) }
    {
        match head_at(rest) {
            Head::End => Ok(Step::End),
            Head::Texts(count, texts) => self.add_texts(blocks, count, texts),
            Head::Duplicate(other, behind) => {
                self.add_duplicate(other)?;
                Ok(Step::Behind(behind))
            }
            Head::Skip(count, behind) => {
                self.skip(count);
                Ok(Step::Behind(behind))
            }
            Head::Extension(behind) => Ok(Step::Behind(behind)),
            Head::BadBlock => Ok(Step::Bad(Cause::StringBlock)),
        }
    }
}

/// The places of the texts of blocks, or the fault of the first that is bad; its place counts from the first byte.
pub(crate) fn places_of_texts(
    alloc: Global,
    blocks: &[u8],
) -> Result<Result<Vec<TextPlace>, Fault>, AllocError>
    requires { length blocks.now < 2 ^ 24 }
    ensures whole { IfOk result (λ checked. OnOk checked (HoldsBlocks blocks.now)) }
    ensures places { IfOk result (λ checked. IfOk checked (λ places.
        HasTable blocks.now places.items)) }
    ensures bad { IfOk result (λ checked. IfErr checked (IsBlockFault blocks.now)) }
{
    let mut found = TextPlaces::new(alloc);
    let mut rest = blocks;
    'walk: loop {
        match found.add_front(blocks, rest)? {
            Step::End => return Ok(Ok(found.places)),
            Step::Behind(behind) => rest = behind,
            Step::Bad(cause) => {
                let place = (blocks.len() - rest.len()) as u64;
                return Ok(Err(Fault::at(cause, place)));
            }
        }
    }
}

//! What the blocks of a string package tell of one string id.

ghost use Rattle.std.specs.Prelude.{◌≡◌, ◌+◌, ◌<◌, ℕ, List, Option, length, Some, slice_get};
ghost use Rattle.browser_rules.specs.Strings.{cut_texts};
ghost use Rattle.sibt_strings.specs.code.Blocks as spec;
ghost use Rattle.sibt_strings.specs.code.Blocks.{texts_said, with_block};

use crate::block::{Block, Texts};
use crate::front::{skip_texts, split_block, split_text};
use crate::units::Units;

/// What is told of one string id.
#[derive(Clone, Copy)]
pub(crate) enum Entry<'a> {
    Text(Units<'a>),
    /// The text of this id, which stands before it.
    Duplicate(u16),
    Nothing,
}

ghost use Rattle.sibt_strings.specs.code.Views.{units_in, whole_texts, block_seen, count_of, TellsOf};

// One of several texts, counted from 0.
fn nth_text(texts: Texts<'_>, n: u16) -> Units<'_>
    requires { n < texts.count }
    ensures { slice_get (whole_texts (cut_texts texts.entry.count texts.entry.bytes.now)) n
        ≡ Some (units_in result) }
{
    let rest = skip_texts(n, texts.bytes).unwrap();
    split_text(rest).unwrap().0
}

/// Of how many string ids a block says something.
pub(crate) fn count_in(block: Block<'_>) -> u16
    ensures { result ≡ count_of (block_seen block.entry) }
{
    match block {
        Block::Texts(texts) => texts.count,
        Block::Duplicate(_) => 1,
        Block::Skip(count) => count,
        Block::Extension => 0,
    }
}

// What a block tells of a string id, the nth of its own, counted from 0.
fn entry_in(block: Block<'_>, n: u16, id: u16) -> Entry<'_>
    requires { n < count_of (block_seen block) }
    ensures { (before : List (Option (List ℕ))) → length before + n + 1 ≡ id
        → TellsOf (with_block before (block_seen block.entry)) id result }
{
    match block {
        Block::Texts(texts) => Entry::Text(nth_text(texts, n)),
        Block::Duplicate(other) => {
            if other < id {
                Entry::Duplicate(other)
            } else {
                Entry::Nothing
            }
        }
        Block::Skip(_) => Entry::Nothing,
        Block::Extension => unreachable!(),
    }
}

/// What the blocks tell of a string id.
pub(crate) fn entry_at(blocks: &[u8], id: u16) -> Entry<'_>
    ensures { (whole : List spec.Block) → spec.AreBlocks blocks.now whole
        → TellsOf (texts_said whole) id result }
{
    if id == 0 {
        return Entry::Nothing;
    }
    let mut rest = blocks;
    let mut before = id - 1;
    'walk: while let Some((block, behind)) = split_block(rest) {
        let count = count_in(block);
        if before < count {
            return entry_in(block, before, id);
        }
        before -= count;
        rest = behind;
    }
    Entry::Nothing
}

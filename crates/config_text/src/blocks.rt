//! The blocks of a configuration text.

ghost use Rattle.std.specs.Prelude.{◌≡◌, true};
ghost use Rattle.config_text.specs.code.Elements.{are_elements};

use crate::block::Block;
use crate::elements::split_block;
use crate::kind::TextKind;

/// The blocks that are left of a text or of a whole store, from the first on.
#[derive(Clone, Copy)]
pub struct Blocks<'a> {
    // The bytes of a whole store that stands before the blocks of the text, or 0.
    whole: u16,
    rest: &'a [u8],
    kind: TextKind,
    ghost sound: { are_elements kind rest.now ≡ true },
}

impl<'a> Blocks<'a> {
    ghost use Rattle.std.specs.Prelude.{◌≡◌, true};
    ghost use Rattle.std.specs.Bool.{Decides};
    ghost use Rattle.config_text.specs.Written.{AreInside};
    ghost use Rattle.config_text.specs.code.Written.{whole_store};
    ghost use Rattle.config_text.specs.code.Elements.{are_elements, areas_of};
    ghost use Rattle.config_text.specs.code.BlocksLeft.{blocks_left};

    // The blocks of elements.
    pub(crate) fn of(kind: TextKind, elements: &'a [u8]) -> Blocks<'a>
        requires { are_elements kind elements.now ≡ true }
        ensures { blocks_left result ≡ areas_of kind elements.entry.now }
    {
        Blocks {
            whole: 0,
            rest: elements,
            kind,
        }
    }

    // A store of so many bytes as one block, and none of no bytes.
    pub(crate) fn of_store(size: u16) -> Blocks<'a>
        ensures { blocks_left result ≡ whole_store size }
    {
        Blocks {
            whole: size,
            rest: &[],
            kind: TextKind::Ask,
        }
    }

    /// Whether each block that is left lies in a store of so many bytes.
    pub fn are_inside(self, size: usize) -> bool
        ensures { Decides result (AreInside (blocks_left self.entry) size) }
    {
        let mut blocks = self;
        while let Some(block) = blocks.next() {
            if size < block.offset as usize + block.width as usize {
                return false;
            }
        }
        true
    }
}

impl<'a> Iterator for Blocks<'a> {
    ghost use Rattle.std.specs.Iterator.{YieldsFirstBy, item_count};
    ghost use Rattle.config_text.specs.code.Views.{block_view};
    ghost use Rattle.config_text.specs.code.BlocksLeft.{blocks_left};

    type Item = Block<'a>;

    ghost next_gives = { YieldsFirstBy block_view blocks_left };

    ghost remaining = { item_count blocks_left };

    fn next(&mut self) -> Option<Block<'a>> {
        if self.whole > 0 {
            let width = self.whole;
            self.whole = 0;
            return Some(Block {
                offset: 0,
                width,
                digits: &[],
            });
        }
        if self.rest.is_empty() {
            return None;
        }
        let (block, rest) = split_block(self.kind, self.rest).unwrap();
        self.rest = rest;
        Some(block)
    }
}

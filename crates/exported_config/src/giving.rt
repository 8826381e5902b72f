//! What blocks give to a store.

ghost use Rattle.std.specs.Prelude.{◌≡◌, ◌+◌, ◌≤◌, None, IfOk, length, map, option_map};
ghost use Rattle.std.specs.List.{find};
ghost use Rattle.exported_config.specs.Giving as spec;
ghost use Rattle.exported_config.specs.code.Views.{block_view};

use crate::block::Block;
use config_text::Block as Part;
use hii_bytes::laws::are_bytes;
use std::alloc::{AllocError, Global};

/// What a store is given.
#[derive(Drop)]
pub struct Given {
    /// How many bytes, or the end of the first block that leaves the store.
    pub count: usize,
    /// The bytes of the store, zeros where none are given, or no bytes where a block leaves the store.
    pub bytes: Vec<u8>,
    /// The name under which they stand, where it is not the store's: a byte for each character, `?` for one above U+00FF.
    pub alias: Option<Vec<u8>>,
}

// Lays a block over the bytes of a store.
fn lay(bytes: &mut [u8], block: &Block<'_>)
    requires fits { block.now.offset + block.now.width ≤ length bytes.old }
    requires small { length bytes.old ≤ 65535 }
    ensures { bytes.new ≡ spec.laid bytes.old (block_view block.now) }
{
    if block.width == 0 {
        return;
    }
    let part = Part {
        offset: block.offset as u16,
        width: block.width as u16,
        digits: block.digits,
    };
    let given = &mut bytes[block.offset..block.offset + block.width];
    part.value_into(given);
    are_bytes(given);
}

// Marks the bytes that a block gives.
fn mark(marks: &mut [bool], block: &Block<'_>)
    requires { block.now.offset + block.now.width ≤ length marks.old }
    ensures { marks.new ≡ spec.marked marks.old (block_view block.now) }
{
    marks[block.offset..block.offset + block.width].fill(true);
}

// The first block that leaves a store of so many bytes.
fn first_leaving<'b, 'a>(blocks: &'b [Block<'a>], size: usize) -> Option<&'b Block<'a>>
    ensures { option_map (λ b. block_view b.now) result ≡ find (spec.leaves size) (map block_view blocks.entry.now) }
{
    for block in blocks {
        if size < block.offset + block.width {
            return Some(block);
        }
    }
    None
}

// The bytes that blocks give to a store that holds so many, in which they lie.
fn bytes_laid(alloc: Global, blocks: &[Block<'_>], size: u16) -> Result<Vec<u8>, AllocError>
    requires { find (spec.leaves size) (map block_view blocks.now) ≡ None }
    ensures { IfOk result (λ bytes. bytes.items ≡ spec.bytes_laid size (map block_view blocks.now)) }
{
    let mut bytes = vec![in alloc; 0; usize::from(size)]?;
    for block in blocks {
        lay(&mut bytes, block);
    }
    Ok(bytes)
}

// How many bytes they give.
fn count_laid(alloc: Global, blocks: &[Block<'_>], size: u16) -> Result<usize, AllocError>
    requires { find (spec.leaves size) (map block_view blocks.now) ≡ None }
    ensures { IfOk result (λ count. count ≡ spec.count_laid size (map block_view blocks.now)) }
{
    let mut marks = vec![in alloc; false; usize::from(size)]?;
    for block in blocks {
        mark(&mut marks, block);
    }
    Ok(marks.iter().filter(|mark| **mark).count())
}

// What blocks give to a store that holds so many bytes.
pub(crate) fn given_by(
    alloc: Global,
    blocks: &[Block<'_>],
    size: u16,
    alias: Option<Vec<u8>>,
) -> Result<Given, AllocError>
    ensures { IfOk result (λ given. spec.given_view given
        ≡ spec.given (option_map (λ name. name.items) alias) size (map block_view blocks.now)) }
{
    if let Some(block) = first_leaving(blocks, usize::from(size)) {
        return Ok(Given {
            count: block.offset + block.width,
            bytes: Vec::new(alloc),
            alias,
        });
    }
    Ok(Given {
        count: count_laid(alloc, blocks, size)?,
        bytes: bytes_laid(alloc, blocks, size)?,
        alias,
    })
}

//! Responses, written.

ghost use Rattle.std.specs.Prelude.{◌≡◌, ◌+◌, ◌<◌, ◌≤◌, ◌^◌, length};
ghost use Rattle.std.specs.List.{flat_map};
ghost use Rattle.hii_bytes.specs.Watching.{pen_of, Puts, Tells};
ghost use Rattle.browser_rules.specs.Configuration.{Block};
ghost use Rattle.config_text.specs.Written.{AreInside, response_to};
ghost use Rattle.config_text.specs.code.Written.{block_text};
ghost use Rattle.config_text.specs.code.BlocksLeft.{blocks_left};
ghost use Rattle.config_text.specs.code.TextViews.{request_view};

use crate::blocks::Blocks;
use crate::put_digits::{put_value, put_word};
use crate::request::Request;
use hii_bytes::{Watched, WriteFault};
use std::io::Write;

/// Writes the response to a request, with the values of a store's bytes (UEFI 2.8, 34.2.1 String Grammar): its header, and
/// each of its blocks, or where it has none the whole store as one. The store has less than 65536 bytes, and the blocks lie
/// in it. At a writer's fault the front of the text is written, as many bytes as the fault says.
pub fn write_response<W: Write>(
    out: &mut Watched<W>,
    request: &Request<'_>,
    store: &[u8],
) -> Result<(), WriteFault>
    requires small { length store.now < 2 ^ 16 }
    requires inside { AreInside (request_view request.now).1 (length store.now) }
    ensures { Tells (pen_of W.contents out.old) (pen_of W.contents out.new) result (response_to (request_view request.now) store.now) }
{
    out.restart();
    put_response(out, request, store);
    if out.failed() {
        return Err(WriteFault {
            written: out.taken(),
        });
    }
    Ok(())
}

/// Writes the response as one of several texts: whether the writer failed is asked of the writer.
pub fn put_response<W: Write>(out: &mut Watched<W>, request: &Request<'_>, store: &[u8])
    requires small { length store.now < 2 ^ 16 }
    requires inside { AreInside (request_view request.now).1 (length store.now) }
    ensures { Puts W.contents out.old out.new (response_to (request_view request.now) store.now) }
{
    request.header().put(out);
    put_blocks(out, request.blocks_asked(store.len()), store);
}

fn put_blocks<W: Write>(out: &mut Watched<W>, blocks: Blocks<'_>, store: &[u8])
    requires { AreInside (blocks_left blocks) (length store.now) }
    ensures { Puts W.contents out.old out.new (flat_map (block_text store.now) (blocks_left blocks.entry)) }
{
    let mut blocks = blocks;
    while let Some(block) = blocks.next() {
        put_block(out, block.offset, block.width, store);
    }
}

fn put_block<W: Write>(out: &mut Watched<W>, offset: u16, width: u16, store: &[u8])
    requires { offset + width ≤ length store.now }
    ensures { (area : Block) → area.offset ≡ offset → area.width ≡ width →
        Puts W.contents out.old out.new (block_text store.now area) }
{
    let start = offset as usize;
    out.put(b"&OFFSET=");
    put_word(out, offset);
    out.put(b"&WIDTH=");
    put_word(out, width);
    out.put(b"&VALUE=");
    put_value(out, &store[start..start + width as usize]);
}

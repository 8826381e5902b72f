//! Requests: configuration texts that ask for values.

ghost use Rattle.std.specs.Prelude.{◌≡◌, true};
ghost use Rattle.config_text.specs.declared.kind.TextKind.TheVariants.{Ask};
ghost use Rattle.config_text.specs.code.Elements.{are_elements};

use crate::blocks::Blocks;
use crate::elements::check_elements;
use crate::header::Header;
use crate::kind::TextKind;
use hii_bytes::Cause;

/// A request (UEFI 2.8, 34.2.1 String Grammar): a header, and blocks without values.
#[derive(Clone, Copy)]
pub struct Request<'a> {
    header: Header<'a>,
    elements: &'a [u8],
    ghost sound: { are_elements Ask elements.now ≡ true },
}

impl<'a> Request<'a> {
    ghost use Rattle.std.specs.Prelude.{◌≡◌, ◌<◌, ◌^◌, Ok, Err, MatchResult};
    ghost use Rattle.config_text.specs.code.Reading.{reading_of};
    ghost use Rattle.browser_rules.specs.Configuration.{blocks_asked};
    ghost use Rattle.config_text.specs.code.BlocksLeft.{blocks_left};
    ghost use Rattle.config_text.specs.code.TextViews.{request_view};
    ghost use Rattle.config_text.specs.code.Views.{header_view};

    // The request that a text is.
    pub(crate) fn read(text: &'a [u8]) -> Result<Request<'a>, Cause>
        ensures { MatchResult result (λ request. reading_of Ask text.entry.now ≡ Ok (request_view request))
            (λ cause. reading_of Ask text.entry.now ≡ Err cause) }
    {
        let (header, elements) = Header::split(text).ok_or(Cause::BadHeader)?;
        check_elements(TextKind::Ask, elements)?;
        Ok(Request { header, elements })
    }

    /// What the request names.
    pub fn header(&self) -> Header<'a>
        ensures { header_view result ≡ (request_view self.now).0 }
    {
        self.header
    }

    /// Its own blocks, in their order.
    pub fn blocks(&self) -> Blocks<'a>
        ensures { blocks_left result ≡ (request_view self.now).1 }
    {
        Blocks::of(TextKind::Ask, self.elements)
    }

    /// The blocks that it asks for in a store of so many bytes, less than 65536: its own, or where it has none the whole
    /// store as one, and none of a store without bytes. These are the blocks of the response.
    pub fn blocks_asked(&self, size: usize) -> Blocks<'a>
        requires { size < 2 ^ 16 }
        ensures { blocks_left result ≡ blocks_asked (request_view self.now).1 size }
    {
        if self.elements.is_empty() {
            return Blocks::of_store(size as u16);
        }
        self.blocks()
    }
}

//! Responses: configuration texts that tell values.

ghost use Rattle.std.specs.Prelude.{◌≡◌, true};
ghost use Rattle.config_text.specs.declared.kind.TextKind.TheVariants.{Tell};
ghost use Rattle.config_text.specs.code.Elements.{are_elements};

use crate::blocks::Blocks;
use crate::elements::check_elements;
use crate::header::Header;
use crate::kind::TextKind;
use hii_bytes::Cause;

/// A response (UEFI 2.8, 34.2.1 String Grammar): a header, and blocks with their values.
#[derive(Clone, Copy)]
pub struct Response<'a> {
    header: Header<'a>,
    pub(crate) elements: &'a [u8],
    ghost sound: { are_elements Tell elements.now ≡ true },
}

impl<'a> Response<'a> {
    ghost use Rattle.std.specs.Prelude.{◌≡◌, Ok, Err, MatchResult};
    ghost use Rattle.config_text.specs.code.Reading.{reading_of};
    ghost use Rattle.config_text.specs.code.BlocksLeft.{blocks_left};
    ghost use Rattle.config_text.specs.code.TextViews.{response_view};
    ghost use Rattle.config_text.specs.code.Views.{header_view};

    // The response that a text is.
    pub(crate) fn read(text: &'a [u8]) -> Result<Response<'a>, Cause>
        ensures { MatchResult result (λ response. reading_of Tell text.entry.now ≡ Ok (response_view response))
            (λ cause. reading_of Tell text.entry.now ≡ Err cause) }
    {
        let (header, elements) = Header::split(text).ok_or(Cause::BadHeader)?;
        check_elements(TextKind::Tell, elements)?;
        Ok(Response { header, elements })
    }

    /// What the response names.
    pub fn header(&self) -> Header<'a>
        ensures { header_view result ≡ (response_view self.now).0 }
    {
        self.header
    }

    /// Its blocks, in their order.
    pub fn blocks(&self) -> Blocks<'a>
        ensures { blocks_left result ≡ (response_view self.now).1 }
    {
        Blocks::of(TextKind::Tell, self.elements)
    }
}

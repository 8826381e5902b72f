//! Laws of the definitions that the contracts cite.

ghost use Rattle.std.specs.Prelude.{◌≡◌, ◌<◌, ◌^◌, length};
ghost use Rattle.config_text.specs.code.TextViews.{response_view};
ghost use Rattle.config_text.specs.laws.Texts.{ReadsTexts, TellsFaults, RefusesByFour, SaysOneThing, HasOneFault, HasNoFault, ReadsResponsesBack, WritesNumbers};

use crate::response::Response;

/// The rules read just the texts of the grammar.
pub fn texts_are_read()
    ensures { ReadsTexts }
{}

/// They tell just the leftmost fault of the others.
pub fn faults_are_told()
    ensures { TellsFaults }
{}

/// They refuse a text by one of four causes, so that `text_cause` takes each for the one of its name.
pub fn texts_are_refused_by_four_causes()
    ensures { RefusesByFour }
{}

/// A text has one header and one list of blocks.
pub fn a_text_says_one_thing()
    ensures { SaysOneThing }
{}

/// A text has one fault at most, and none where it is one of the grammar.
pub fn a_text_has_one_fault()
    ensures one { HasOneFault }
    ensures none { HasNoFault }
{}

/// The written response to a request is a response with the request's header and its blocks, or the whole store as one
/// where it has none, each with its value in the store.
pub fn responses_are_read_back()
    ensures { ReadsResponsesBack }
{}

/// The written value of bytes is their number, the lowest byte first.
pub fn values_are_numbers_of_bytes()
    ensures { WritesNumbers }
{}

/// A response has not more blocks than bytes.
pub fn blocks_are_few(response: &Response<'_>)
    ensures { length (response_view response.now).1 < 2 ^ 64 }
{
    size(response.elements);
}

// How many bytes a text has, which a `usize` holds.
fn size(text: &[u8]) -> usize
    ensures { result ≡ length text.now }
{
    text.len()
}

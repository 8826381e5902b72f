//! A text, read element by element.

ghost use Rattle.std.specs.Prelude.{◌≡◌, ◌+◌, ◌<◌, ◌≤◌, ◌∷◌, nat_le, Ok, IfSome, MatchResult, length, option_map};
ghost use Rattle.std.specs.List.{slice_split};
ghost use Rattle.exported_config.specs.declared.unread.Unread.TheVariants.{Bad};
ghost use Rattle.exported_config.specs.Exported as spec;
ghost use Rattle.exported_config.specs.code.Views.{IsUnread, behind, elements_behind, responses_view};

use crate::block::Block;
use crate::groups::{are_hex, groups};
use crate::response::Response;
use crate::unread::{BadResponse, Part, Unread};
use hii_bytes::number_of_digits;
use std::alloc::Global;

const MOST_DIGITS: usize = 16;

// A block ends here at most.
const MOST_BYTES: u64 = 65536;

const GUID_BYTES: usize = 16;

/// What the block that is read wants.
#[derive(Clone, Copy, PartialEq, Eq)]
pub(crate) enum Wanted {
    /// None is begun.
    AnOffset,
    /// A width, behind its offset.
    AWidth(u64),
    /// A value, behind its offset and its width.
    AValue(u64, u64),
}

// What was read: the responses before the one that is read, this one, and what its block wants.
#[derive(Drop)]
pub(crate) struct Reading<'a> {
    before: Vec<Response<'a>>,
    current: Option<Response<'a>>,
    wanted: Wanted,
}

fn is_separator(byte: u8) -> bool
    ensures { result ≡ spec.is_separator byte }
{
    matches!(byte, b'&' | b'\r' | b'\n')
}

// The first element of a text, and what stands behind the separator that ends it, if one does.
fn split_element(text: &[u8]) -> (&[u8], Option<&[u8]>)
    ensures elements { slice_split spec.is_separator text.now
        ≡ result.0.now ∷ elements_behind (option_map (λ rest. rest.now) result.1) }
    ensures fewer { IfSome result.1 (λ rest. length rest.now < length text.now) }
{
    for (place, byte) in text.iter().enumerate() {
        if is_separator(*byte) {
            return (&text[..place], Some(&text[place + 1..]));
        }
    }
    (text, None)
}

/// The responses of a text.
pub(crate) fn responses_in<'a>(alloc: Global, text: &'a [u8]) -> Result<Vec<Response<'a>>, Unread>
    ensures { MatchResult result (λ responses. spec.responses_in text.entry.now ≡ Ok (responses_view responses.items))
        (λ unread. IsUnread unread (spec.responses_in text.entry.now)) }
{
    let mut reading = Reading {
        before: Vec::new(alloc),
        current: None,
        wanted: Wanted::AnOffset,
    };
    let mut left = Some(text);
    while let Some(rest) = left {
        let (element, behind) = split_element(rest);
        reading = reading.step(alloc, element)?;
        left = behind;
    }
    reading.end()
}

impl Wanted {
    // Whether no block lacks something.
    fn is_whole(self) -> bool
        ensures { result ≡ spec.is_whole self }
    {
        match self {
            Wanted::AnOffset => true,
            Wanted::AWidth(_) | Wanted::AValue(_, _) => false,
        }
    }
}

// What stands behind a key, where an element begins with it.
fn behind_key<'a>(key: &[u8], element: &'a [u8]) -> Option<&'a [u8]>
    ensures { option_map (λ digits. digits.now) result ≡ behind key.now element.now }
{
    element.strip_prefix(key)
}

// What is bad in a response.
fn bad(number: usize, part: Part) -> Unread
    ensures { result ≡ Bad (record { number = number; part = part }) }
{
    Unread::Bad(BadResponse { number, part })
}

// The number of 1 to 16 hex digits.
fn number_of(digits: &[u8]) -> Option<u64>
    ensures { result ≡ spec.sixteen_digits digits.now }
{
    number_of_digits(digits, 16, MOST_DIGITS)
}

// Whether a block of this offset and width ends where one may.
fn ends_inside(offset: u64, width: u64) -> bool
    ensures { result ≡ nat_le (offset + width) 65536 }
{
    offset <= MOST_BYTES && width <= MOST_BYTES - offset
}

// Whether the digits before the last two for each byte are 0.
fn fits_width(width: u64, digits: &[u8]) -> bool
    requires { width ≤ 65536 }
    ensures { result ≡ spec.fits_width width digits.now }
{
    let higher = digits.len().saturating_sub(2 * width as usize);
    digits[..higher].iter().all(|digit| *digit == b'0')
}

// Whether digits are the value of a block of this offset and width.
fn is_value(offset: u64, width: u64, digits: &[u8]) -> bool
    ensures { result ≡ spec.is_value offset width digits.now }
{
    !digits.is_empty() && are_hex(digits) && ends_inside(offset, width) && fits_width(width, digits)
}

impl<'a> Reading<'a> {
    ghost use Rattle.std.specs.Prelude.{◌≡◌, ◌+◌, Ok, Err, MatchResult};
    ghost use Rattle.exported_config.specs.Exported as spec;
    ghost use Rattle.exported_config.specs.code.Views.{IsUnread, reading_view, responses_view};
    ghost use Rattle.exported_config.specs.declared.unread.Unread.TheVariants.{Bad};

    // How many responses were begun.
    fn number(&self) -> usize
        ensures { result ≡ spec.number_of (reading_view self.now) }
    {
        self.before.len() + usize::from(self.current.is_some())
    }

    // Takes the next element.
    fn step(self, alloc: Global, element: &'a [u8]) -> Result<Reading<'a>, Unread>
        ensures { MatchResult result (λ next. spec.step (reading_view self.entry) element.entry.now ≡ Ok (reading_view next))
            (λ unread. IsUnread unread (spec.step (reading_view self.entry) element.entry.now)) }
    {
        if let Some(digits) = behind_key(b"GUID=", element) {
            return self.begin(alloc, digits);
        }
        if let Some(digits) = behind_key(b"NAME=", element) {
            return self.name(alloc, digits);
        }
        if let Some(digits) = behind_key(b"OFFSET=", element) {
            return self.place(digits);
        }
        if let Some(digits) = behind_key(b"WIDTH=", element) {
            return self.widen(digits);
        }
        if let Some(digits) = behind_key(b"VALUE=", element) {
            return self.give(digits);
        }
        if behind_key(b"ALTCFG=", element).is_some() {
            return self.mark();
        }
        Ok(self)
    }

    // GUID: another response begins.
    fn begin(self, alloc: Global, digits: &[u8]) -> Result<Reading<'a>, Unread>
        ensures { MatchResult result (λ next. spec.begun (reading_view self.entry) digits.now ≡ Ok (reading_view next))
            (λ unread. IsUnread unread (spec.begun (reading_view self.entry) digits.now)) }
    {
        let number = self.number();
        if !self.wanted.is_whole() {
            return Err(bad(number, Part::NoValue));
        }
        let Some(guid) = groups(alloc, 2, digits)? else {
            return Err(bad(number + 1, Part::Guid));
        };
        if guid.len() != GUID_BYTES {
            return Err(bad(number + 1, Part::Guid));
        }
        let Reading {
            mut before,
            current,
            wanted: _,
        } = self;
        if let Some(response) = current {
            before.push(response)?;
        }
        Ok(Reading {
            before,
            current: Some(Response {
                guid,
                name: None,
                blocks: Vec::new(alloc),
                is_alternative: false,
            }),
            wanted: Wanted::AnOffset,
        })
    }

    // NAME: once, before all blocks.
    fn name(self, alloc: Global, digits: &[u8]) -> Result<Reading<'a>, Unread>
        ensures { MatchResult result (λ next. spec.named (reading_view self.entry) digits.now ≡ Ok (reading_view next))
            (λ unread. IsUnread unread (spec.named (reading_view self.entry) digits.now)) }
    {
        let number = self.number();
        let Reading {
            before,
            current,
            wanted,
        } = self;
        let Some(mut response) = current else {
            return Err(bad(1, Part::NoGuid));
        };
        if !wanted.is_whole() {
            return Err(bad(number, Part::NoValue));
        }
        if response.name.is_some() {
            return Err(bad(number, Part::Name));
        }
        let Some(name) = groups(alloc, 4, digits)? else {
            return Err(bad(number, Part::Name));
        };
        response.name = Some(name);
        Ok(Reading {
            before,
            current: Some(response),
            wanted,
        })
    }

    // OFFSET: a block begins.
    fn place(self, digits: &[u8]) -> Result<Reading<'a>, Unread>
        ensures { MatchResult result (λ next. spec.placed (reading_view self.entry) digits.now ≡ Ok (reading_view next))
            (λ unread. IsUnread unread (spec.placed (reading_view self.entry) digits.now)) }
    {
        let number = self.number();
        let Some(response) = &self.current else {
            return Err(bad(1, Part::NoGuid));
        };
        if !self.wanted.is_whole() {
            return Err(bad(number, Part::NoValue));
        }
        if response.name.is_none() {
            return Err(bad(number, Part::Name));
        }
        match number_of(digits) {
            Some(offset) => Ok(self.wanting(Wanted::AWidth(offset))),
            None => Err(bad(number, Part::Offset)),
        }
    }

    // WIDTH: behind the offset.
    fn widen(self, digits: &[u8]) -> Result<Reading<'a>, Unread>
        ensures { MatchResult result (λ next. spec.widened (reading_view self.entry) digits.now ≡ Ok (reading_view next))
            (λ unread. IsUnread unread (spec.widened (reading_view self.entry) digits.now)) }
    {
        let number = self.number();
        if self.current.is_none() {
            return Err(bad(1, Part::NoGuid));
        }
        let Wanted::AWidth(offset) = self.wanted else {
            return Err(bad(number, Part::Width));
        };
        match number_of(digits) {
            Some(width) => Ok(self.wanting(Wanted::AValue(offset, width))),
            None => Err(bad(number, Part::Width)),
        }
    }

    // The same, but for what the block wants.
    fn wanting(self, wanted: Wanted) -> Reading<'a>
        ensures { reading_view result ≡ spec.wanting_now (reading_view self.entry) wanted }
    {
        Reading {
            before: self.before,
            current: self.current,
            wanted,
        }
    }

    // VALUE: behind the width.
    fn give(self, digits: &'a [u8]) -> Result<Reading<'a>, Unread>
        ensures { MatchResult result (λ next. spec.valued (reading_view self.entry) digits.entry.now ≡ Ok (reading_view next))
            (λ unread. IsUnread unread (spec.valued (reading_view self.entry) digits.entry.now)) }
    {
        let number = self.number();
        let Reading {
            before,
            current,
            wanted,
        } = self;
        let Some(mut response) = current else {
            return Err(bad(1, Part::NoGuid));
        };
        let Wanted::AValue(offset, width) = wanted else {
            return Err(bad(number, Part::Value));
        };
        if !is_value(offset, width, digits) {
            return Err(bad(number, Part::Value));
        }
        response.blocks.push(Block {
            offset: offset as usize,
            width: width as usize,
            digits,
        })?;
        Ok(Reading {
            before,
            current: Some(response),
            wanted: Wanted::AnOffset,
        })
    }

    // ALTCFG: what the response tells is an alternative.
    fn mark(self) -> Result<Reading<'a>, Unread>
        ensures { MatchResult result (λ next. spec.marked (reading_view self.entry) ≡ Ok (reading_view next))
            (λ unread. IsUnread unread (spec.marked (reading_view self.entry))) }
    {
        let Reading {
            before,
            current,
            wanted,
        } = self;
        let Some(mut response) = current else {
            return Err(bad(1, Part::NoGuid));
        };
        response.is_alternative = true;
        Ok(Reading {
            before,
            current: Some(response),
            wanted,
        })
    }

    // The responses, where no block lacks something.
    fn end(self) -> Result<Vec<Response<'a>>, Unread>
        ensures { MatchResult result (λ responses. spec.ended (reading_view self.entry) ≡ Ok (responses_view responses.items))
            (λ unread. IsUnread unread (spec.ended (reading_view self.entry))) }
    {
        let number = self.number();
        if !self.wanted.is_whole() {
            return Err(bad(number, Part::NoValue));
        }
        let Reading {
            mut before,
            current,
            wanted: _,
        } = self;
        if let Some(response) = current {
            before.push(response)?;
        }
        Ok(before)
    }
}

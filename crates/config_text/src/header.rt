//! The header of a configuration text.

ghost use Rattle.std.specs.Prelude.{◌≡◌, true};
ghost use Rattle.config_text.specs.code.Reading.{are_header_digits};

use crate::groups::{are_groups, are_numbers};
use crate::parts::{split_first, split_next};
use crate::put_digits::put_pairs;
use hii_bytes::Watched;
use std::io::Write;

/// A header (UEFI 2.8, 34.2.1 String Grammar): a GUID, a store's name and a device path, in hex digits of either case.
#[derive(Clone, Copy)]
pub struct Header<'a> {
    guid: &'a [u8],
    name: &'a [u8],
    path: &'a [u8],
    ghost digits: { are_header_digits guid.now name.now path.now ≡ true },
}

impl<'a> Header<'a> {
    ghost use Rattle.std.specs.Prelude.{◌≡◌, option_map};
    ghost use Rattle.std.specs.Bool.{Decides};
    ghost use Rattle.config_text.specs.code.Parts.{text_parts};
    ghost use Rattle.config_text.specs.code.Reading.{head_in};
    ghost use Rattle.config_text.specs.code.Written.{header_text};
    ghost use Rattle.config_text.specs.code.Views.{head_of, header_view};
    ghost use Rattle.hii_bytes.specs.Watching.{Puts};

    // The header at the front of a text, with the rest from the `&` behind it on.
    pub(crate) fn split(text: &'a [u8]) -> Option<(Header<'a>, &'a [u8])>
        ensures { option_map (λ found. head_of found.0 found.1.now) result ≡ head_in (text_parts text.entry.now) }
    {
        let (guid, rest) = split_first(text, b"GUID=")?;
        let (name, rest) = split_next(rest, b"NAME=")?;
        let (path, rest) = split_next(rest, b"PATH=")?;
        if !are_header_digits(guid, name, path) {
            return None;
        }
        Some((Header { guid, name, path }, rest))
    }

    /// Whether it names these: the bytes of a GUID in their order, a store's name, each byte of it a character, and the
    /// bytes of a device path.
    pub fn names(&self, guid: &[u8], name: &[u8], path: &[u8]) -> bool
        ensures { Decides result (header_view self.now ≡ record { guid = guid.now; name = name.now; path = path.now }) }
    {
        are_numbers(self.guid, 2, guid)
            && are_numbers(self.name, 4, name)
            && are_numbers(self.path, 2, path)
    }

    // Writes the header anew, in lower-case digits.
    pub(crate) fn put<W: Write>(&self, out: &mut Watched<W>)
        ensures { Puts W.contents out.old out.new (header_text (header_view self.now)) }
    {
        out.put(b"GUID=");
        put_pairs(out, self.guid);
        out.put(b"&NAME=");
        // The digits of a character are those of two bytes.
        put_pairs(out, self.name);
        out.put(b"&PATH=");
        put_pairs(out, self.path);
    }
}

fn are_header_digits(guid: &[u8], name: &[u8], path: &[u8]) -> bool
    ensures { result ≡ are_header_digits guid.now name.now path.now }
{
    are_groups(guid, 2) && guid.len() == 32 && are_groups(name, 4) && are_groups(path, 2)
}

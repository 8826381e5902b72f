//! Numbers, written in lower-case hex digits.

ghost use Rattle.std.specs.Prelude.{◌≡◌, true};
ghost use Rattle.std.specs.List.{flat_map};
ghost use Rattle.hii_bytes.specs.Texts.{hex_of};
ghost use Rattle.hii_bytes.specs.Watching.{Puts};
ghost use Rattle.config_text.specs.code.PartReading.{is_grouped, group_numbers};
ghost use Rattle.config_text.specs.code.Written.{four_digits, value_digits};

use crate::groups::group_at;
use hex::encode_to_slice;
use hii_bytes::Watched;
use std::io::Write;

// Writes a byte in two hex digits.
fn put_byte<W: Write>(out: &mut Watched<W>, byte: u8)
    ensures { Puts W.contents out.old out.new (hex_of byte) }
{
    let mut digits = [0u8; 2];
    encode_to_slice([byte], &mut digits).unwrap();
    out.put(&digits);
}

// Writes a number in four hex digits.
pub(crate) fn put_word<W: Write>(out: &mut Watched<W>, n: u16)
    ensures { Puts W.contents out.old out.new (four_digits n) }
{
    let mut digits = [0u8; 4];
    encode_to_slice(n.to_be_bytes(), &mut digits).unwrap();
    out.put(&digits);
}

// Writes bytes in hex digits, the last byte first.
pub(crate) fn put_value<W: Write>(out: &mut Watched<W>, bytes: &[u8])
    ensures { Puts W.contents out.old out.new (value_digits bytes.now) }
{
    let mut rest = bytes;
    while !rest.is_empty() {
        let last = rest.len() - 1;
        put_byte(out, rest[last]);
        rest = &rest[..last];
    }
}

// Writes each byte that the digits write.
pub(crate) fn put_pairs<W: Write>(out: &mut Watched<W>, digits: &[u8])
    requires { is_grouped 2 digits.now ≡ true }
    ensures { Puts W.contents out.old out.new (flat_map hex_of (group_numbers 2 digits.now)) }
{
    for place in 0..digits.len() / 2 {
        put_byte(out, group_at(digits, 2, place) as u8);
    }
}

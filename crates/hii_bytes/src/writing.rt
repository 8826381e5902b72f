//! Texts on a watched writer.

ghost use Rattle.std.specs.Prelude.{◌≡◌, ◌≤◌, ◌<◌, ℕ, false, length, decimal, replicate, encode_utf8};
ghost use Rattle.std.specs.Fmt.{digit_glyph};
ghost use Rattle.hii_bytes.specs.Watching.{Puts, Writes};
ghost use Rattle.hii_bytes.specs.Texts.{right_aligned, hex_of, place_text, cause_text, fault_text};

use crate::cause::{Cause, Fault};
use crate::watched::Watched;
use itoa::Buffer;
use std::io::Write;
use thiserror::Error;

/// A writer's fault, after this many bytes of a text.
#[derive(Clone, Copy, Debug, PartialEq, Eq, Error)]
#[error("the writer failed after {written} bytes")]
pub struct WriteFault {
    pub written: u64,
}

impl<W: Write> Watched<W> {
    /// Writes all of the bytes, unless the writer fails. At a writer that failed before nothing is written.
    pub fn put(&mut self, bytes: &[u8])
        ensures { Puts W.contents self.old self.new bytes.now }
    {
        let mut rest = bytes;
        while !rest.is_empty() {
            match self.write(rest) {
                Ok(0) => return,
                Ok(n) => rest = &rest[n..],
                Err(_) => return,
            }
        }
    }
}

// Spaces that are written at once.
const SPACES: [u8; 24] = [b' '; 24];

impl<W: Write> Watched<W> {
    /// Writes the number in decimal digits.
    pub fn put_decimal(&mut self, n: u64)
        ensures { Puts W.contents self.old self.new (decimal n) }
    {
        let mut buffer = Buffer::new();
        self.put(buffer.format(n).as_bytes());
    }

    /// Writes the number in decimal digits, after as many spaces as make it this wide.
    pub fn put_decimal_right(&mut self, width: usize, n: u64)
        ensures { Puts W.contents self.old self.new (right_aligned width (decimal n)) }
    {
        let mut buffer = Buffer::new();
        let digits = buffer.format(n).as_bytes();
        self.put_spaces(width.saturating_sub(digits.len()));
        self.put(digits);
    }

    /// Writes that many spaces.
    pub fn put_spaces(&mut self, count: usize)
        ensures { Puts W.contents self.old self.new (replicate count 32) }
    {
        let mut left = count;
        while left > 0 {
            let some = left.min(SPACES.len());
            self.put(&SPACES[..some]);
            left -= some;
        }
    }

    /// Writes the byte in two lower-case hex digits.
    pub fn put_hex(&mut self, byte: u8)
        ensures { Puts W.contents self.old self.new (hex_of byte) }
    {
        self.put(&[hex_digit(byte / 16), hex_digit(byte % 16)]);
    }

    /// Writes the character in UTF-8.
    pub fn put_char(&mut self, c: char)
        ensures { Puts W.contents self.old self.new (encode_utf8 c) }
    {
        let mut bytes = [0u8; 4];
        self.put(c.encode_utf8(&mut bytes).as_bytes());
    }

    /// Writes the lowest 32 bits of a place in eight lower-case hex digits.
    pub fn put_place(&mut self, place: u64)
        ensures { Puts W.contents self.old self.new (place_text place) }
    {
        self.put_hex((place / 0x100_0000 % 256) as u8);
        self.put_hex((place / 0x1_0000 % 256) as u8);
        self.put_hex((place / 0x100 % 256) as u8);
        self.put_hex((place % 256) as u8);
    }

    /// Writes by which cause something is refused.
    pub fn put_cause(&mut self, cause: Cause)
        ensures { Puts W.contents self.old self.new (cause_text cause) }
    {
        self.put(b"REFUSED ");
        self.put_decimal(u64::from(cause.number()));
        self.put(b" ");
        self.put(cause.name().as_bytes());
    }

    /// Writes by which cause bytes are refused, and at which place, of which it tells the lowest 32 bits.
    pub fn put_fault(&mut self, fault: Fault)
        ensures { Puts W.contents self.old self.new (fault_text fault) }
    {
        self.put_cause(fault.cause);
        self.put(b" at ");
        self.put_place(fault.place);
    }
}

fn hex_digit(digit: u8) -> u8
    requires { digit < 16 }
    ensures { result ≡ digit_glyph false digit }
{
    if digit < 10 {
        b'0' + digit
    } else {
        b'a' + (digit - 10)
    }
}

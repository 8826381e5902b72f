//! Bytes that are written together.

ghost use Rattle.std.specs.Prelude.{◌≡◌, ◌≤◌, ◌<◌, [], ◌∷◌, decimal, replicate, encode_utf8};
ghost use Rattle.hii_bytes.specs.Watching.{pen_of, Puts};
ghost use Rattle.hii_bytes.specs.Texts.{right_aligned};
ghost use Rattle.form_page.specs.Texts.{utf8};
ghost use Rattle.form_page.specs.code.Lines.{Adds};

use arrayvec::ArrayVec;
use hii_bytes::Watched;
use itoa::Buffer;
use std::io::Write;

// Spaces that are added at once.
const SPACES: [u8; 24] = [b' '; 24];

/// Bytes of a line that are not written yet: they are gathered, so that they are written together.
#[derive(Drop)]
pub(crate) struct Line {
    pub(crate) held: ArrayVec<u8, 512>,
}

impl Line {
    /// Nothing yet.
    pub(crate) fn new() -> Line
        ensures { result.held.items ≡ [] }
    {
        Line {
            held: ArrayVec::new(),
        }
    }

    // Writes what is held.
    fn pass_on<W: Write>(&mut self, out: &mut Watched<W>)
        ensures empty { self.new.held.items ≡ [] }
        ensures text { Puts W.contents out.old out.new self.old.held.items }
    {
        out.put(self.held.as_slice());
        self.held.clear();
    }

    /// Adds bytes.
    pub(crate) fn put<W: Write>(&mut self, bytes: &[u8], out: &mut Watched<W>)
        ensures { Adds (pen_of W.contents out.old) self.old (pen_of W.contents out.new) self.new
            bytes.now }
    {
        if self.held.try_extend_from_slice(bytes).is_ok() {
            return;
        }
        self.pass_on(out);
        if self.held.try_extend_from_slice(bytes).is_err() {
            out.put(bytes);
        }
    }

    /// Adds a byte.
    pub(crate) fn put_byte<W: Write>(&mut self, byte: u8, out: &mut Watched<W>)
        ensures { Adds (pen_of W.contents out.old) self.old (pen_of W.contents out.new) self.new
            (byte ∷ []) }
    {
        if self.held.try_push(byte).is_err() {
            self.put(&[byte], out);
        }
    }

    /// Adds a character in UTF-8.
    pub(crate) fn put_char<W: Write>(&mut self, c: char, out: &mut Watched<W>)
        ensures { Adds (pen_of W.contents out.old) self.old (pen_of W.contents out.new) self.new
            (encode_utf8 c) }
    {
        if c.is_ascii() {
            self.put_byte(c as u8, out);
            return;
        }
        let mut bytes = [0u8; 4];
        self.put(c.encode_utf8(&mut bytes).as_bytes(), out);
    }

    /// Adds so many spaces, at most 24.
    pub(crate) fn put_spaces<W: Write>(&mut self, count: usize, out: &mut Watched<W>)
        requires { count ≤ 24 }
        ensures { Adds (pen_of W.contents out.old) self.old (pen_of W.contents out.new) self.new
            (replicate count 32) }
    {
        self.put(&SPACES[..count], out);
    }

    /// Adds the number in decimal digits.
    pub(crate) fn put_decimal<W: Write>(&mut self, n: u64, out: &mut Watched<W>)
        ensures { Adds (pen_of W.contents out.old) self.old (pen_of W.contents out.new) self.new
            (utf8 (decimal n)) }
    {
        let mut buffer = Buffer::new();
        let digits = buffer.format(n).as_bytes();
        self.put(digits, out);
    }

    /// Adds the number in decimal digits, after as many spaces as make it this wide, at most 24.
    pub(crate) fn put_decimal_right<W: Write>(&mut self, width: usize, n: u64, out: &mut Watched<W>)
        requires { width ≤ 24 }
        ensures { Adds (pen_of W.contents out.old) self.old (pen_of W.contents out.new) self.new
            (right_aligned width (decimal n)) }
    {
        let mut buffer = Buffer::new();
        let digits = buffer.format(n).as_bytes();
        self.put_spaces(width.saturating_sub(digits.len()), out);
        self.put(digits, out);
    }

    /// Writes what is held at the line's end.
    pub(crate) fn end<W: Write>(self, out: &mut Watched<W>)
        ensures { Puts W.contents out.old out.new self.held.items }
    {
        out.put(self.held.as_slice());
    }
}

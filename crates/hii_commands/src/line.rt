//! Lines that come in pieces.

ghost use Rattle.std.specs.Prelude.{◌≡◌, ◌≤◌, ◌<◌, ◌+◌, ℕ, List, [], ◌++◌, true, false, length, IfOk, IfErr, MatchOption, MatchResult};
ghost use Rattle.std.specs.List.{position, before_first};
ghost use Rattle.hii_bytes.specs.Faults.{out_of_memory};
ghost use Rattle.hii_commands.specs.code.Lines.{ends_line};
ghost use Rattle.hii_commands.specs.code.Held.{held_of};

use crate::command::BadLine;
use crate::limits::LINE_LIMIT;
use hii_bytes::{Fault, first_place};
use std::alloc::Global;
use std::marker::Model;

/// How many bytes of a piece were taken, and whether they end a line.
#[derive(Clone, Copy)]
pub struct Fed {
    pub taken: usize,
    pub complete: bool,
}

/// The bytes of one line, as they come in pieces: the first of them, up to the limit, and whether more came.
#[derive(Drop)]
pub struct LineBuffer {
    bytes: Vec<u8>,
    more: bool,
}

impl Model for LineBuffer {
    ghost use Rattle.std.specs.Prelude.{◌≤◌, vec_len, vec_capacity};
    ghost use Rattle.hii_commands.specs.declared.limits.TheConstants.{LINE_LIMIT};
    ghost use Rattle.hii_commands.specs.code.Held.{Held};

    ghost Value = { Held };

    ghost view = { λ b. record { front = b.bytes.items; more = b.more } };

    ghost invariant = { λ b. (LINE_LIMIT ≤ vec_capacity b.bytes) × (vec_len b.bytes ≤ LINE_LIMIT) };
}

impl LineBuffer {
    /// An empty buffer, with all the memory that it ever takes. Refuses by OutOfMemory at place 0.
    pub fn new(alloc: Global) -> Result<LineBuffer, Fault>
        ensures empty { IfOk result (λ buffer. buffer ≡ held_of []) }
        ensures memory { IfErr result (λ fault. fault ≡ out_of_memory) }
    {
        Ok(LineBuffer {
            bytes: Vec::with_capacity(alloc, LINE_LIMIT)?,
            more: false,
        })
    }

    /// Takes the piece up to and with its first LF, or all of it.
    pub fn feed(&mut self, piece: &[u8]) -> Fed
        ensures taken { MatchOption (position ends_line piece.now)
            ((result.taken ≡ length piece.now) × (result.complete ≡ false))
            (λ i. (result.taken ≡ i + 1) × (result.complete ≡ true)) }
        ensures held { (line : List ℕ) → self.old ≡ held_of line
            → self.new ≡ held_of (line ++ before_first ends_line piece.now) }
    {
        match first_place(piece, b'\n') {
            Some(i) => {
                self.append(&piece[..i]);
                Fed {
                    taken: i + 1,
                    complete: true,
                }
            }
            None => {
                self.append(piece);
                Fed {
                    taken: piece.len(),
                    complete: false,
                }
            }
        }
    }

    #[inline(always)]
    fn append(&mut self, part: &[u8])
        ensures { (line : List ℕ) → self.old ≡ held_of line
            → self.new ≡ held_of (line ++ part.now) }
    {
        let room = LINE_LIMIT - self.bytes.len();
        if part.len() <= room {
            self.bytes.extend_from_slice(part).unwrap();
        } else {
            self.bytes.extend_from_slice(&part[..room]).unwrap();
            self.more = true;
        }
    }

    /// The bytes that came since `new` or `clear`, without the LF, or LineTooLong where they are more than 4,096, a CR
    /// counted.
    pub fn line(&self) -> Result<&[u8], BadLine>
        ensures { (line : List ℕ) → self.now ≡ held_of line
            → MatchResult result (λ s. (length line ≤ LINE_LIMIT) × (s.now ≡ line))
            (λ e. (LINE_LIMIT < length line) × (e ≡ BadLine.LineTooLong)) }
    {
        if self.more {
            Err(BadLine::LineTooLong)
        } else {
            Ok(self.bytes.as_slice())
        }
    }

    /// Forgets the line, for the next.
    pub fn clear(&mut self)
        ensures { self.new ≡ held_of [] }
    {
        self.bytes.clear();
        self.more = false;
    }
}

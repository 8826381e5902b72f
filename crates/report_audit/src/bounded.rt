//! Bytes in memory, of which there are not too many.

ghost use Rattle.std.specs.Prelude.{◌≡◌, Some, []};
ghost use Rattle.std.specs.Io.{WritesAtMost};
ghost use Rattle.std.specs.Io.KnownBytes.{Keeps, WriteAppends};
ghost use Rattle.report_audit.specs.code.Holding.{held_in};

use std::alloc::Global;
use std::io::{Result, Write};

/// Bytes in memory, at most so many. It takes of a write what it has room for: where it is full, nothing.
#[derive(Drop)]
pub(crate) struct Bounded {
    bytes: Vec<u8>,
    most: usize,
}

impl Bounded {
    /// None yet, of at most so many.
    pub(crate) fn new(alloc: Global, most: usize) -> Bounded
        ensures { held_in result ≡ [] }
    {
        Bounded {
            bytes: Vec::new(alloc),
            most,
        }
    }

    /// The bytes.
    pub(crate) fn into_bytes(self) -> Vec<u8>
        ensures { result.items ≡ held_in self }
    {
        let Bounded { bytes, most: _ } = self;
        bytes
    }
}

impl Write for Bounded {
    ghost contents = { λ b. Some (held_in b) };

    fn write(&mut self, buf: &[u8]) -> Result<usize>
        ensures bound { WritesAtMost result buf.now }
        ensures bytes { WriteAppends (Some (held_in self.old)) (Some (held_in self.new)) result buf.now }
    {
        let room = self.most.saturating_sub(self.bytes.len());
        let taken = if buf.len() <= room { buf } else { &buf[..room] };
        self.bytes.write(taken)
    }

    fn flush(&mut self) -> Result<()>
        ensures bytes { Keeps (Some (held_in self.old)) (Some (held_in self.new)) }
    {
        Ok(())
    }
}

//! A script is read in pieces, and each complete line of a piece is answered before the next read.

use crate::sessions::after;
use browser_core::End;
use hii_bytes::Watched;
use std::alloc::{AllocError, Global};
use std::cell::Cell;
use std::io;
use std::io::{BufWriter, Read, Write};
use std::process::Abort;

// A line, the length of its answer, and how often it stands in a script. The most bytes of a piece are no number of lines.
const LINE: &[u8] = b"why 1\n";

const ANSWER: usize = 3;

const LINES: usize = 300;

const PIECE: usize = 512;

fn lines(alloc: Global) -> Result<Vec<u8>, AllocError> {
    let mut all = Vec::new(alloc);
    for _ in 0..LINES {
        all.extend_from_slice(LINE)?;
    }
    Ok(all)
}

/// Counts the bytes that are written.
#[derive(Drop)]
struct Counting<'a> {
    written: &'a Cell<usize>,
}

impl Write for Counting<'_> {
    fn write(&mut self, buf: &[u8]) -> io::Result<usize> {
        self.written
            .set(self.written.get().saturating_add(buf.len()));
        Ok(buf.len())
    }

    fn flush(&mut self) -> io::Result<()> {
        Ok(())
    }
}

/// Gives at most `step` bytes of a script in a read, and looks at how many bytes are written before.
#[derive(Drop)]
struct Looking<'a> {
    script: &'a [u8],
    step: usize,
    given: usize,
    written: &'a Cell<usize>,
    is_as_wanted: bool,
}

// Whether the answers to so many bytes of a script are written, and nothing else.
fn are_answered(given: usize, written: &Cell<usize>) -> bool {
    written.get() == (given / LINE.len()).saturating_mul(ANSWER)
}

impl Read for Looking<'_> {
    fn read(&mut self, buf: &mut [u8]) -> io::Result<usize> {
        let is_piece = !buf.is_empty() && buf.len() <= PIECE;
        self.is_as_wanted &= is_piece && are_answered(self.given, self.written);
        let most = buf.len().min(self.step);
        let count = self.script.read(&mut buf[..most])?;
        self.given = self.given.saturating_add(count);
        Ok(count)
    }
}

// At each read of a script that comes in such steps all lines are answered that were read before, behind a buffer, too.
fn come_before_the_next_read<R: Abort + AllocGlobal>(rt: &R, step: usize, lines: &[u8]) {
    let written = Cell::new(0);
    let mut script = Watched::new(Looking {
        script: lines,
        step,
        given: 0,
        written: &written,
        is_as_wanted: true,
    });
    let buffer = BufWriter::new(rt.alloc(), Counting { written: &written }).expect(rt, "a buffer");
    let mut out = Watched::new(buffer);
    let (end, _) = after(rt, &mut script, &mut out);
    assert!(rt; end == Ok(End::Done));
    assert!(rt; script.into_inner().is_as_wanted, "in steps of {step}");
}

#[test]
fn answers_come_before_the_next_read(rt: HostRuntime) {
    let lines = lines(rt.alloc()).expect(&rt, "a script");
    for step in [7, PIECE] {
        come_before_the_next_read(&rt, step, lines.as_slice());
    }
}

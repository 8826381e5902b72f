//! Readers and writers that are watched.

use hii_bytes::Watched;
use std::io::{BufWriter, Read, Write};

// A piece that is larger than the buffers of a program.
static PIECE: [u8; 10_000] = [b'x'; 10_000];

fn piece() -> &'static [u8] {
    &PIECE
}

#[test]
fn a_reader_that_is_at_its_end_has_not_failed(rt: HostRuntime) {
    let mut reader = Watched::new(b"some".as_slice());
    let mut room = [0u8; 5];
    assert!(rt; reader.read(&mut room).ok() == Some(4));
    assert!(rt; reader.read(&mut room).ok() == Some(0) && !reader.failed());
}

#[test]
fn a_writer_takes_a_piece_at_once(rt: HostRuntime) {
    let mut out = Watched::new(Vec::new(rt.alloc()));
    assert!(rt; out.write(piece()).ok() == Some(10_000));
    // An empty piece is no fault.
    assert!(rt; out.write(b"").ok() == Some(0) && !out.failed());
    assert!(rt; out.taken() == 10_000);
    out.restart();
}

#[test]
fn a_buffer_is_passed_on_and_flushed(rt: HostRuntime) {
    let buffer = BufWriter::new(rt.alloc(), Vec::new(rt.alloc())).expect(&rt, "a buffer");
    let mut out = Watched::new(buffer);
    out.put(b"so");
    assert!(rt; out.pass_on().is_ok() && out.has_passed_on());
    out.put(b"me");
    assert!(rt; out.flush().is_ok() && out.has_passed_on());
    let (inner, held) = out.into_inner().into_parts();
    assert!(rt; inner.as_slice() == b"some".as_slice() && held.is_empty());
}

// It is asked for nothing more from then on.
#[test]
fn a_writer_that_takes_nothing_has_failed(rt: HostRuntime) {
    let mut room = [0u8; 2];
    let mut out = Watched::new(room.as_mut_slice());
    out.put(b"more");
    assert!(rt; out.failed() && out.taken() == 2);
    assert!(rt; out.write(b"").is_err() && out.flush().is_err());
}

//! Files that are read or fail, and what is told of them.

use crate::broken::Broken;
use hii_bytes::{Cause, Watched};
use setup_files::{Noted, ReadError, Status, Terminals, read_whole, shown, tell_refused};
use std::io::{ErrorKind, Read};
use std::process::Abort;

#[test]
fn a_file_is_read_whole(rt: HostRuntime) {
    let mut reader = Watched::new(b"some".as_slice());
    let read = read_whole(rt.alloc(), &mut reader).ok();
    assert!(rt; read.expect(&rt, "a file").as_slice() == b"some".as_slice());
}

#[test]
fn a_file_may_fail(rt: HostRuntime) {
    let mut broken = Watched::new(Broken { bytes: b"some" });
    assert!(rt; matches!(read_whole(rt.alloc(), &mut broken), Err(ReadError::Fault)));
}

#[test]
fn the_reason_of_a_fault_is_kept(rt: HostRuntime) {
    let mut broken = Noted::new(Broken { bytes: b"" });
    let mut piece = [0; 2];
    assert!(rt; broken.read(&mut piece).is_err());
    let error = broken.error().expect(&rt, "a reason");
    assert!(rt; error.kind() == ErrorKind::Interrupted);
}

#[test]
fn a_refusal_is_told_with_its_status(rt: HostRuntime) {
    let mut answers = Watched::new(Vec::new(rt.alloc()));
    assert!(rt; tell_refused(Cause::OutOfMemory, &mut answers) == Status::NoMemory);
    let told = answers.into_inner();
    assert!(rt; told.as_slice() == b"REFUSED 60 OutOfMemory\n".as_slice());
}

// A test has no terminal, so that nothing is told here.
#[test]
fn a_pipe_is_told_nothing(rt: HostRuntime) {
    let terminals = Terminals::of(&rt);
    terminals.greet(&rt, "");
    terminals.explain(&rt, "", None);
    assert!(rt; shown(&rt, terminals, &"") == Status::Done);
}

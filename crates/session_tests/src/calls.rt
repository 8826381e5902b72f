//! The call that takes all memory of a session: that of its languages, forms, layout, questions, stores and lines.

use crate::lists::{image, list};
use browser_core::Session;
use hii_bytes::{Cause, Fault};
use hii_varstore::Stores;
use std::alloc::Global;

// The first byte of the store 1.
fn first_byte(stores: &Stores) -> Option<u8> {
    stores.bytes(1)?.first().copied()
}

// That of the stores of a session.
fn byte_opened(alloc: Global) -> Result<Option<u8>, Fault> {
    let session = Session::open(alloc, list(), 1, image(), b"en-US")?;
    Ok(first_byte(session.working()))
}

// Where it is refused, which is for want of memory alone, it is opened once more.
#[test]
fn a_session_is_opened(rt: HostRuntime) {
    let opened = match byte_opened(rt.alloc()) {
        Err(fault) => {
            assert!(rt; fault.cause == Cause::OutOfMemory && fault.place == 0);
            byte_opened(rt.alloc())
        }
        opened => opened,
    };
    assert!(rt; matches!(opened, Ok(Some(2))));
}

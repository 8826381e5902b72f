//! Stores: what a form set declares, and images that are read and written.

use crate::forms::{image, read_forms};
use hii_bytes::{Fault, Watched, WriteFault};
use hii_varstore::{Buffer, Layout, Stores, laws};
use std::alloc::Global;
use std::process::Abort;

// What the form set declares, which does not borrow what was read of it.
fn declared(alloc: Global) -> Result<Layout<'static>, Fault> {
    let forms = read_forms(alloc)?;
    Layout::read(alloc, &forms)
}

fn are_declared(rt: &impl Abort, layout: &Layout<'_>) {
    assert!(rt; layout.guid().bytes().first() == Some(&0x22));
    assert!(rt; layout.buffers().first() == Some(&Buffer { id: 1, size: 6 }));
    assert!(rt; layout.size(1) == Some(6));
}

fn image_is_written(rt: &impl Abort, alloc: Global, stores: &Stores) {
    let mut out = Watched::new(Vec::new(alloc));
    assert!(rt; stores.image_into(&mut out) == Ok(()));
    assert!(rt; out.into_inner().as_slice() == image());
}

// A writer takes 27 bytes.
fn image_is_cut_short(rt: &impl Abort, stores: &Stores) {
    let mut room = [0u8; 27];
    let mut out = Watched::new(room.as_mut_slice());
    assert!(rt; stores.image_into(&mut out) == Err(WriteFault { written: 27 }));
    assert!(rt; image().starts_with(&room));
}

// The byte 2 of the store 1.
fn byte_of(stores: &Stores) -> Option<u8> {
    stores.bytes(1)?.get(2).copied()
}

// It when it was overwritten, and when the bytes were copied back.
fn changed_and_copied(alloc: Global, layout: &Layout<'_>) -> Result<[Option<u8>; 2], Fault> {
    let mut stores = Stores::read(alloc, layout, image())?;
    let committed = stores.copy(alloc)?;
    laws::a_write_keeps_the_shape();
    laws::images_without_fault_are_spelled();
    let Some(6) = layout.size(1) else {
        return Ok([None; 2]);
    };
    stores.field_mut(1, 2, 1).copy_from_slice(b"x");
    let changed = byte_of(&stores);
    stores.copy_from(&committed);
    Ok([changed, byte_of(&stores)])
}

#[test]
fn stores_are_read_and_written(rt: HostRuntime) {
    let layout = declared(rt.alloc()).expect(&rt, "a layout");
    are_declared(&rt, &layout);
    let stores = Stores::read(rt.alloc(), &layout, image()).expect(&rt, "stores");
    image_is_written(&rt, rt.alloc(), &stores);
    image_is_cut_short(&rt, &stores);
    let told = changed_and_copied(rt.alloc(), &layout).expect(&rt, "a copy");
    assert!(rt; told == [Some(b'x'), Some(2)]);
}

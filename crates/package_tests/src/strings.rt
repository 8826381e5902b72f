//! The texts of a string package, by a walk over its blocks and by a table.

use hii_packages::{Package, STRINGS};
use sibt_strings::{StringTable, Strings, Units};
use std::process::Abort;

static PACKAGE: [u8; 61] = [
    61, 0, 0, 4, 46, 0, 0, 0, 52, 0, 0, 0, // the header, of 46 bytes
    0, 0, 0, 0, 0, 0, 0, 0, 0, 0, 0, 0, 0, 0, 0, 0, 0, 0, 0, 0, 0, 0, 0, 0, 0, 0, 0, 0, 0, 0, 0, 0,
    0, 0, b'e', b'n', b'-', b'U', b'S', 0, // its language
    0x14, b'A', 0, 0, 0, // the text 1 is A
    0x20, 1, 0, // the text 2 is the text 1
    0, // the end of the texts
];

// The package, of whose bytes proofs know nothing.
fn bytes() -> &'static [u8] {
    &PACKAGE
}

fn package(rt: &impl Abort) -> Package<'static> {
    let bytes = bytes();
    assert!(rt; bytes.len() == 61);
    Package {
        place: 0,
        kind: STRINGS,
        bytes,
    }
}

#[test]
fn a_walk_and_a_table_find_texts(rt: HostRuntime) {
    let walk = Strings::read(package(&rt)).expect(&rt, "strings");
    assert!(rt; walk.language() == b"en-US".as_slice());
    assert!(rt; walk.text(2).expect(&rt, "the text 2").bytes == b"A\0".as_slice());
    let table = StringTable::of_package(rt.alloc(), package(&rt)).expect(&rt, "a table");
    assert!(rt; table.language() == b"en-US".as_slice());
    assert!(rt; table.text(2).expect(&rt, "the text 2").bytes == b"A\0".as_slice());
}

#[test]
fn a_text_has_characters(rt: HostRuntime) {
    let mut chars = Units::new(&[0x00, 0xd8, 0x42, 0]).chars();
    assert!(rt; [chars.next(), chars.next()] == [Some('\u{fffd}'), Some('B')]);
}

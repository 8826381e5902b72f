//! The packages of a list.

use hii_packages::PackageList;

static LIST: [u8; 40] = [
    1, 2, 3, 4, 5, 6, 7, 8, 9, 10, 11, 12, 13, 14, 15, 16, // its GUID
    40, 0, 0, 0, // its length, at 16
    5, 0, 0, 2, 0x29, // a forms package, at 20
    7, 0, 0, 8, 0x7f, 0xff, 4, // a device path, at 25
    4, 0, 0, 2, // a forms package, at 32
    4, 0, 0, 0xdf, // the end package, at 36
];

// The list, of whose bytes proofs know nothing.
fn list() -> &'static [u8] {
    &LIST
}

#[test]
fn a_list_has_packages(rt: HostRuntime) {
    let list = PackageList::read(list()).expect(&rt, "a list");
    let first = list.packages().next().expect(&rt, "a package");
    assert!(rt; first.place == 20 && first.kind == 2);
    assert!(rt; list.forms(2).expect(&rt, "a forms package").place == 32);
    assert!(rt; list.device_path() == b"\x7f\xff\x04".as_slice());
}

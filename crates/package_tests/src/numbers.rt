//! Numbers of bytes, and numbers of digits.

use hii_bytes::{
    NumberList, first_place, is_number_list, number_at, number_of_digits, u16_at, u24_at, u32_at,
    u64_at,
};

static BYTES: [u8; 8] = [1, 2, 3, 4, 5, 6, 7, 8];

// The bytes come from a function without a clause, so that no proof computes with them.
fn bytes() -> &'static [u8] {
    &BYTES
}

#[test]
fn numbers_of_bytes_and_digits(rt: HostRuntime) {
    let bytes = bytes();
    assert!(rt; (u16_at(bytes, 6), u24_at(bytes, 5)) == (Some(0x0807), Some(0x0008_0706)));
    assert!(rt; (u32_at(bytes, 5), number_at(bytes, 1, 4)) == (None, Some(0x0504_0302)));
    assert!(rt; u64_at(bytes, 0) == Some(0x0807_0605_0403_0201));
    assert!(rt; number_of_digits(b"fF", 16, 2) == Some(255));
    assert!(rt; is_number_list(b"07,1") && NumberList::of(b"07,1").next() == Some(7));
    assert!(rt; first_place(b"1,2", b',') == Some(1));
}

//! The list of the cases, and an image of its stores.

// A list of a string package, a forms package and the end package.
static LIST: [u8; 223] = [
    0x11, 0x11, 0x11, 0x11, 0x11, 0x11, 0x11, 0x11, 0x11, 0x11, 0x11, 0x11, 0x11, 0x11, 0x11, 0x11,
    223, 0, 0, 0, // its length, at 16
    75, 0, 0, 4, 46, 0, 0, 0, 52, 0, 0, 0, // the string package, at 20
    0, 0, 0, 0, 0, 0, 0, 0, 0, 0, 0, 0, 0, 0, 0, 0, 0, 0, 0, 0, 0, 0, 0, 0, 0, 0, 0, 0, 0, 0, 0, 0,
    0, 0, b'e', b'n', b'-', b'U', b'S', 0, // its language
    0x14, 0x41, 0, 0, 0, // the text 1 is A
    0x22, 3, // the texts 2 to 4 are left out
    0x14, 0, 0xd8, 0xf1, 0xff, 0x42, 0, 0, 0, // the text 5 is U+D800, U+FFF1 and B
    0x20, 1, 0, // the text 6 is the text 1
    0x20, 9, 0, // the text 7 is one that is not there
    0, // the end of the texts
    124, 0, 0, 2, // the forms package, at 95; places in it are counted from here
    0x0e, 0x97, 0x22, 0x22, 0x22, 0x22, 0x22, 0x22, 0x22, 0x22, 0x22, 0x22, 0x22, 0x22, 0x22, 0x22,
    0x22, 0x22, 1, 0, 0, 0, 0, // FORM_SET, at 4
    0x24, 24, 0x33, 0x33, 0x33, 0x33, 0x33, 0x33, 0x33, 0x33, 0x33, 0x33, 0x33, 0x33, 0x33, 0x33,
    0x33, 0x33, 1, 0, 2, 0, b'V', 0, // VARSTORE of the id 1 and two bytes, at 27
    0x01, 0x86, 1, 0, 2, 0, // a form of the id 1 with the title 2, at 51
    0x05, 0x91, 3, 0, 0, 0, 1, 0, 1, 0, 0, 0, 0, 0x10, 0, 0, 0, // a one-of of the id 1, byte 0 of store 1, at 57
    0x09, 7, 5, 0, 0x10, 0, 1, // the option 1 with the text 5, at 74
    0x0a, 0x82, 0x46, 2, // SUPPRESS_IF with TRUE, at 81
    0x09, 7, 6, 0, 0, 0, 2, // the option 2 with the text 6, at 85
    0x29, 2, 0x29, 2, // END, at 92 and 94
    0x1e, 0x82, // DISABLE_IF, at 96
    0x12, 6, 1, 0, 2, 0, // the question 1 answers 2, at 98
    0x06, 14, 4, 0, 0, 0, 2, 0, 1, 0, 1, 0, 0, 0, // a checkbox of the id 2, byte 1 of store 1, at 104
    0x29, 2, 0x29, 2, 0x29, 2, // END, at 118, 120 and 122
    4, 0, 0, 0xdf, // the end package, at 219
];

// The list, of whose bytes proofs know nothing.
pub(crate) fn list() -> &'static [u8] {
    &LIST
}

// An image in which the store 1 has the bytes 2 and 0.
pub(crate) fn image() -> &'static [u8] {
    b"HVS1\x01\0\x01\0\x02\0\x02\0"
}

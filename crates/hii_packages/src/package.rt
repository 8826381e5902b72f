//! One package of a list.

ghost use Rattle.std.specs.Prelude.{◌+◌, ◌<◌, ◌≤◌, ◌^◌, length};

/// The Type of a forms package.
pub const FORMS: u8 = 0x02;

/// The Type of a string package.
pub const STRINGS: u8 = 0x04;

/// The Type of a package that tells a device path.
pub const DEVICE_PATH: u8 = 0x08;

/// The Type of the package that ends a list.
pub const END: u8 = 0xDF;

/// A package of a list (UEFI 2.8, 33.3.1): its place in bytes from the list's front, its Type, and all of its bytes
/// with the header of four. A package has less than 2^24 bytes.
#[derive(Clone, Copy)]
pub struct Package<'a> {
    pub place: u64,
    pub kind: u8,
    pub bytes: &'a [u8],
    pub ghost header: { 4 ≤ length bytes.now },
    pub ghost small: { length bytes.now < 2 ^ 24 },
    pub ghost in_list: { place + length bytes.now < 2 ^ 64 },
}

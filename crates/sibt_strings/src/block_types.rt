//! The numbers of blocks (UEFI 2.8, 33.3.6.2 String Information).

/// The end of the blocks.
pub(crate) const END: u8 = 0x00;

/// One text.
pub(crate) const STRING_UCS2: u8 = 0x14;

/// A font and one text.
pub(crate) const STRING_UCS2_FONT: u8 = 0x15;

/// A count and so many texts.
pub(crate) const STRINGS_UCS2: u8 = 0x16;

/// A font, a count and so many texts.
pub(crate) const STRINGS_UCS2_FONT: u8 = 0x17;

/// The text of another id.
pub(crate) const DUPLICATE: u8 = 0x20;

/// A count of two bytes of ids without text.
pub(crate) const SKIP2: u8 = 0x21;

/// A count of one byte of ids without text.
pub(crate) const SKIP1: u8 = 0x22;

/// An extension whose length has one byte.
pub(crate) const EXT1: u8 = 0x30;

/// An extension whose length has two bytes.
pub(crate) const EXT2: u8 = 0x31;

/// An extension whose length has four bytes.
pub(crate) const EXT4: u8 = 0x32;

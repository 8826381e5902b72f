//! The classes of defaults that have a number of the standard (UEFI 2.8, 33.2.5.8 Defaults).

/// EFI_HII_DEFAULT_CLASS_STANDARD.
pub const DEFAULT_CLASS_STANDARD: u16 = 0;

/// EFI_HII_DEFAULT_CLASS_MANUFACTURING.
pub const DEFAULT_CLASS_MANUFACTURING: u16 = 1;

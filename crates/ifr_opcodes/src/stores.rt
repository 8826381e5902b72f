//! The stores that a form set names, and its classes of defaults.

ghost use Rattle.std.specs.Prelude.{◌≡◌};
ghost use Rattle.std.specs.List.{position, before_first};
ghost use Rattle.ifr_opcodes.specs.Fields.{is_nul};
ghost use Rattle.ifr_opcodes.specs.code.Ops.{bytes_of};

use crate::codes::{DEFAULTSTORE, VARSTORE, VARSTORE_EFI, VARSTORE_NAME_VALUE};
use crate::row_view::RowView;
use hii_bytes::Guid;

/// Where the first NUL stands.
fn first_nul(bytes: &[u8]) -> Option<usize>
    ensures { result ≡ position is_nul bytes.now }
{
    bytes.iter().position(|byte| *byte == 0)
}

/// The bytes up to the first NUL, or all where there is none.
pub(crate) fn before_nul(bytes: &[u8]) -> &[u8]
    ensures { result.now ≡ before_first is_nul bytes.entry.now }
{
    match first_nul(bytes) {
        Some(len) => &bytes[..len],
        None => bytes,
    }
}

/// A store of a buffer (UEFI 2.8, 33.3.8.3, EFI_IFR_VARSTORE), with a NUL from offset 22 on.
pub type VarstoreOp<'a> = RowView<'a, VARSTORE>;

impl<'a> VarstoreOp<'a> {
    ghost use Rattle.ifr_opcodes.specs.Fields.{varstore_guid, varstore_id, varstore_size, varstore_name};

    /// What names the store, with its name.
    pub fn guid(self) -> Guid<'a>
        ensures { result.bytes.now ≡ varstore_guid (bytes_of self.entry.op) }
    {
        self.op.guid_at(2)
    }

    /// The id by which questions name the store.
    pub fn id(self) -> u16
        ensures { result ≡ varstore_id (bytes_of self.entry.op) }
    {
        self.op.u16_at(18)
    }

    /// How many bytes the store has.
    pub fn size(self) -> u16
        ensures { result ≡ varstore_size (bytes_of self.entry.op) }
    {
        self.op.u16_at(20)
    }

    /// The name's bytes, without the NUL.
    pub fn name(self) -> &'a [u8]
        ensures { result.now ≡ varstore_name (bytes_of self.entry.op) }
    {
        before_nul(self.op.bytes_from(22))
    }
}

/// A store of a buffer that is a variable (UEFI 2.8, 33.3.8.3, EFI_IFR_VARSTORE_EFI), of more than 24 bytes, with a NUL
/// from offset 26 on.
pub type VarstoreEfiOp<'a> = RowView<'a, VARSTORE_EFI>;

impl<'a> VarstoreEfiOp<'a> {
    ghost use Rattle.ifr_opcodes.specs.Fields.{varstore_efi_id, varstore_efi_guid, varstore_efi_attributes, varstore_efi_size, varstore_efi_name};

    /// The id by which questions name the store.
    pub fn id(self) -> u16
        ensures { result ≡ varstore_efi_id (bytes_of self.entry.op) }
    {
        self.op.u16_at(2)
    }

    /// What names the store, with its name.
    pub fn guid(self) -> Guid<'a>
        ensures { result.bytes.now ≡ varstore_efi_guid (bytes_of self.entry.op) }
    {
        self.op.guid_at(4)
    }

    /// The variable's attributes.
    pub fn attributes(self) -> u32
        ensures { result ≡ varstore_efi_attributes (bytes_of self.entry.op) }
    {
        self.op.u32_at(20)
    }

    /// How many bytes the store has.
    pub fn size(self) -> u16
        ensures { result ≡ varstore_efi_size (bytes_of self.entry.op) }
    {
        self.op.u16_at(24)
    }

    /// The name's bytes, without the NUL.
    pub fn name(self) -> &'a [u8]
        ensures { result.now ≡ varstore_efi_name (bytes_of self.entry.op) }
    {
        before_nul(self.op.bytes_from(26))
    }
}

/// A store of names and values (UEFI 2.8, 33.3.8.3, EFI_IFR_VARSTORE_NAME_VALUE), of 20 bytes and more.
pub type VarstoreNameValueOp<'a> = RowView<'a, VARSTORE_NAME_VALUE>;

impl<'a> VarstoreNameValueOp<'a> {
    ghost use Rattle.ifr_opcodes.specs.Fields.{name_value_id, name_value_guid};

    /// The id by which questions name the store.
    pub fn id(self) -> u16
        ensures { result ≡ name_value_id (bytes_of self.entry.op) }
    {
        self.op.u16_at(2)
    }

    /// What names the store.
    pub fn guid(self) -> Guid<'a>
        ensures { result.bytes.now ≡ name_value_guid (bytes_of self.entry.op) }
    {
        self.op.guid_at(4)
    }
}

/// A class of defaults (UEFI 2.8, 33.3.8.3, EFI_IFR_DEFAULTSTORE), of 6 bytes and more.
pub type DefaultStoreOp<'a> = RowView<'a, DEFAULTSTORE>;

impl<'a> DefaultStoreOp<'a> {
    ghost use Rattle.ifr_opcodes.specs.Fields.{defaultstore_name, defaultstore_id};

    /// The string id of the name.
    pub fn name(self) -> u16
        ensures { result ≡ defaultstore_name (bytes_of self.entry.op) }
    {
        self.op.u16_at(2)
    }

    /// The id of the class.
    pub fn id(self) -> u16
        ensures { result ≡ defaultstore_id (bytes_of self.entry.op) }
    {
        self.op.u16_at(4)
    }
}

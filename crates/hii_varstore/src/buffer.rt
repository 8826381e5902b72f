//! One buffer store of a form set.

/// A buffer store of a form set: its id, and how many bytes it holds (UEFI 2.8, 33.3.8.3, EFI_IFR_VARSTORE and
/// EFI_IFR_VARSTORE_EFI).
#[derive(Clone, Copy, Debug, PartialEq, Eq)]
pub struct Buffer {
    pub id: u16,
    pub size: u16,
}

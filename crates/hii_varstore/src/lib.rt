//! The buffer stores of a form set, their bytes, and the image in which they are kept (UEFI 2.8, 33.2.5.6 Storage, and 33.3.8.3,
//! EFI_IFR_VARSTORE and EFI_IFR_VARSTORE_EFI; the image is an own rule).
#![tactic(auto)]

mod buffer;
mod image;
pub mod laws;
mod layout;
mod store;
mod stores;
mod table;
mod varstores;

pub use buffer::Buffer;
pub use layout::Layout;
pub use stores::Stores;

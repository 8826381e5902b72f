//! The text that a firmware's ExportConfig gives, as bytes of stores (UEFI 2.8, 34.2.1 String Grammar; what it gives to a store is an
//! own rule).
#![tactic(auto)]

mod block;
mod exported;
mod giving;
mod groups;
mod reading;
mod response;
mod unread;

pub use exported::{ExportedConfig, StoreName};
pub use giving::Given;
pub use unread::{BadResponse, Part, Unread};

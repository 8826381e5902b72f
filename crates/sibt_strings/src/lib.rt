//! String packages: a language, and texts by string ids (UEFI 2.8, 33.3.6 String Package; what is refused, and what is shown of a
//! text, are own rules).
#![tactic(auto)]

mod block;
mod block_types;
mod blocks;
mod entry;
mod front;
pub mod laws;
mod parts;
mod place;
mod places;
mod strings;
mod table;
mod units;

pub use strings::Strings;
pub use table::StringTable;
pub use units::{UnitChars, Units};

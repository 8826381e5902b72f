//! The opcodes of a forms package, told line by line as far as their lengths allow (own rule; the opcodes are those of UEFI 2.8,
//! 33.3.8 Forms Package).
#![tactic(auto)]

mod facts;
mod field;
pub mod laws;
mod layouts;
mod line;
mod names;
mod standard;
mod strings;
mod walk;
mod words;

pub use facts::string_ids;
pub use strings::FirstStrings;
pub use walk::{put_opcodes, split_front};
pub use words::{put_bytes, put_name, put_quoted_bytes};

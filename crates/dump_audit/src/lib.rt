//! The package lists of a dump, told in lines or as objects (own rule; the formats are those of UEFI 2.8, 33.3 and 34.8).
#![tactic(auto)]

mod contents;
mod findings;
pub mod laws;
mod lines;
mod objects;
mod strings;
mod taking;

pub use lines::{put_list, put_no_list, put_rest, put_split};
pub use taking::{nth_list, put_taken};

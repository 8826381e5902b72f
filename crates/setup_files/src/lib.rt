//! What the programs share: files that are read whole, the file that is written, and how a run ends (own rule).
#![tactic(auto)]

mod arguments;
mod endings;
mod files;
mod given;
mod noted;
mod reading;
mod replacing;
mod terminal;
mod version;

pub use arguments::words;
pub use endings::{Status, fault, refused, shown, tell_refused, usage};
pub use files::{WholeFile, file};
pub use given::{FormSetFiles, Given};
pub use noted::Noted;
pub use reading::{FILE_LIMIT, ReadError, read_whole};
pub use replacing::{OutFile, Replacing, is_same_file, out_file};
pub use terminal::{STANDARD_INPUT, STANDARD_OUTPUT, Terminals};
pub use version::VERSION;

//! The command line of `setup` (own rule).
#![tactic(auto)]

mod command_line;

pub use command_line::{Options, names_script, read_words};

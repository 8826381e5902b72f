//! The defaults of questions (UEFI 2.8, 33.2.5.8 Defaults; which of several counts is an own rule).
#![tactic(auto)]

mod classes;
mod defaults;
mod flags;
mod given;
pub mod laws;

pub use classes::{DEFAULT_CLASS_MANUFACTURING, DEFAULT_CLASS_STANDARD};
pub use defaults::{DefaultSource, default_of, default_source};

//! The texts of a list in its languages (UEFI 2.8, 33.3.6 String Package). Which string package is chosen, and what is shown
//! where it has no text, are own rules.
#![tactic(auto)]

mod choice;
mod languages;
pub mod laws;
mod names;
mod shown;

pub use choice::Choice;
pub use languages::Languages;
pub use shown::{Shown, ShownChars};

//! What is wrong with a package list, and where: by which faults its forms packages are refused (own rule; the formats are those of
//! UEFI 2.8, 33.3 Code Definitions).
#![tactic(auto)]

mod asks;
mod behind;
mod bounds;
mod check;
mod constant_guards;
mod constants;
mod form_set;
mod given_defaults;
mod guard_states;
mod lacks;
pub mod laws;
mod mostly;
mod overlaps;
mod package_lines;
mod refusal;
mod setting;
mod textless;
mod unreached;
mod verdict;
mod warning;
mod warning_lines;
mod warnings;

pub use check::put_check;
pub use form_set::{FormSet, form_set_of};
pub use package_lines::{put_form_set, put_form_set_members};

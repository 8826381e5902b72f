//! Dumps of package lists (UEFI 2.8, 34.8 EFI HII Database Protocol, ExportPackageLists; 33.3.1 Package Lists and Package
//! Headers; that a list is taken by its header alone, and that a rest is left, is an own rule).
#![tactic(auto)]

mod dump;
pub mod laws;
mod lists;

pub use dump::Dump;
pub use lists::{DumpedList, Lists};

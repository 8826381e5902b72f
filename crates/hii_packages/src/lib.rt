//! Lists of HII packages (UEFI 2.8, 33.3.1 Package Lists and Package Headers; what is refused, and as what, is an own rule).
#![tactic(auto)]

pub mod laws;
mod list;
mod package;
mod packages;

pub use list::PackageList;
pub use package::{DEVICE_PATH, END, FORMS, Package, STRINGS};
pub use packages::Packages;

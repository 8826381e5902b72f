//! The commands of `setup_audit` that are about stores: they tell them, make images of them, and tell their bytes (own rule).
#![tactic(auto)]

mod config;
pub mod export;
pub mod image;
mod saying;
mod sources;
mod store_files;
pub mod stores;
mod texts;

pub use config::{config_in, put_bad_response, text_of};
pub use image::check_folder;
pub use sources::{Unsourced, fillings};
pub use store_files::{StoreFiles, SystemFiles};

//! The stores that a form set declares, told line by line, and the image that is made of given bytes (own rule; stores are those
//! of UEFI 2.8, 33.2.5.6 Storage).
#![tactic(auto)]

mod declared;
mod defaults;
mod fillings;
mod header_lines;
mod laying;
mod store_lines;

pub use declared::{Declared, forms_package};
pub use defaults::Defaults;
pub use fillings::{
    Filling, Source, filled, first_unfit, put_image, put_unfit_line, put_unfit_string,
};
pub use header_lines::{device_path, put_headers};
pub use store_lines::put_stores;

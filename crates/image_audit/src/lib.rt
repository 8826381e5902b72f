//! What an image of the stores of a form set holds: the bytes of a store, fields, and what
//! another image holds otherwise (own rule; stores are those of UEFI 2.8, 33.2.5.6 Storage).
#![tactic(auto)]

mod difference;
mod export;
mod fields;
pub mod laws;
mod lines;
mod range;
mod runs;
mod value_objects;

pub use difference::put_difference;
pub use export::put_store;
pub use lines::put_fields;

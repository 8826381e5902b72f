//! The words that all layers share: numbers in bytes and in digits, the causes of refusal, and readers and writers that
//! remember whether they failed.
#![tactic(auto)]

mod bytes;
mod cause;
mod digits;
mod guid;
mod id_table;
pub mod laws;
mod number_list;
mod number_set;
mod numbers;
mod watched;
mod writing;

pub use bytes::first_place;
pub use cause::{Cause, Fault};
pub use digits::number_of_digits;
pub use guid::Guid;
pub use id_table::{IdEntry, IdTable};
pub use number_list::{NumberList, is_number_list};
pub use number_set::NumberSet;
pub use numbers::{number_at, u16_at, u24_at, u32_at, u64_at};
pub use watched::Watched;
pub use writing::WriteFault;

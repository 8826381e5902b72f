//! The questions of a form set, and the values that they have in its stores (UEFI 2.8, 33.2.5.4 Questions and 33.2.5.6 Storage;
//! which values a question takes, and what is refused, are own rules).
#![tactic(auto)]

mod by_field;
mod check;
mod differing;
mod entry;
mod field;
mod field_range;
pub mod laws;
mod locate;
mod merging;
mod over;
mod placed_options;
mod question;
mod questions;
mod questions_by_place;
mod questions_with_field;
mod steps;
mod store_ids;
mod tables;
mod value;

pub use check::{is_outside, lacks_store, option_fault};
pub use entry::{FieldEntry, QuestionEntry};
pub use field::Field;
pub use field_range::FieldRange;
pub use hii_values::{
    DenialKind, Input, Items, MetValues, StoredItems, ValueDenial, WIDEST_FIELD, bytes_of_items,
    element_width, first_kind, shown,
};
pub use over::Over;
pub use placed_options::PlacedOptions;
pub use question::Question;
pub use questions::Questions;
pub use questions_by_place::QuestionsByPlace;
pub use questions_with_field::QuestionsWithField;
pub use value::{check_value, check_value_in, read_value};

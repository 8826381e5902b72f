//! What the fields of questions hold: the values that their bytes are, and the bytes that they take for what is offered
//! (UEFI 2.8, 33.2.5.4 Questions and 33.3.8.3 Opcode Reference; which values a field takes, and what is denied, are own rules).
#![tactic(auto)]

mod choices;
mod content;
mod denial;
mod elements;
mod field_type;
mod fitting;
mod input;
mod items;
mod lists;
mod met_values;
mod numbers;
mod option_table;
mod reading;
mod stored_items;
mod texts;
mod unit_blocks;

pub use content::Content;
pub use denial::{DenialKind, ValueDenial};
pub use elements::{element_width, first_kind};
pub use field_type::{FieldType, ListType, NumericType, OneOfType, TextType, WIDEST_FIELD};
pub use fitting::{content_of, names_options};
pub use input::Input;
pub use items::{Items, bytes_of_items};
pub use met_values::MetValues;
pub use numbers::{fitting_bits, shown};
pub use option_table::{FEW_OPTIONS, OptionTable, OptionsFound};
pub use reading::{number_in, value_in};
pub use stored_items::StoredItems;

//! Texts that lines of an audit share: GUIDs, columns, places, names of stores and of opcodes (own rules, but for the text of a
//! GUID).
#![tactic(auto)]

mod columns;
mod guid;
mod names;
mod opcode_names;
mod stores;
mod texts;

pub use columns::{put_hexadecimal, put_left};
pub use guid::{Case, guid_digits, put_guid};
pub use names::{attributes_text, opcode_name, put_ascii_name, put_language, shown_byte};
pub use stores::{store_attributes, store_opcode_name};
pub use texts::{is_unsafe, put_safe_char, put_safe_shown, put_safe_text};

//! The page of a form: its title and a row for each statement that is seen (UEFI 2.8, 33.2.5.2 Forms; how a row looks is an
//! own rule).
#![tactic(auto)]

mod ascii_text;
mod columns;
mod decisions;
mod hex_digits;
mod line;
mod listed;
mod option_texts;
mod page;
mod plain;
mod print;
mod row;
mod row_value;
mod rows;
mod seen_texts;
mod shown;
mod statement_row;
mod statement_value;
mod value_bytes;
mod value_chars;

pub use option_texts::{Elements, seen_option};
pub use page::Page;
pub use row::{Row, put_row_value};
pub use row_value::{Hexadecimal, RowValue};
pub use rows::Rows;
pub use shown::put_shown;
pub use statement_value::numeric_value;
pub use value_chars::RowValueChars;

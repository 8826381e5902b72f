//! The rows of a page of questions: what is known of one question of a form set, as an element of HTML (own rule; questions are those of
//! UEFI 2.8, 33.2.5.4).
#![tactic(auto)]

mod buffers;
mod checks;
mod decided;
mod decisions;
mod defaults;
mod depends;
mod elements;
mod guards;
mod known;
pub mod laws;
mod leads;
mod limits;
mod links;
mod options;
mod reasons;
mod referring;
mod rows;
mod rules;
mod shown;
mod states;
mod subjects;
mod values;

pub use decisions::{Decision, Decisions};
pub use known::Known;
pub use links::put_form_title;
pub use rows::put_row;
pub use states::{standing_class, standing_word};

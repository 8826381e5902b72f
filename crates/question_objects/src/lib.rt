//! What is known of questions of a form set, as objects of JSON, one a line, and some of their members (own rule; questions are those of
//! UEFI 2.8, 33.2.5.4).
#![tactic(auto)]

mod checks;
mod condition_objects;
mod conditions;
mod decided;
mod depends;
mod detail;
mod form_sets;
mod guards;
mod heads;
mod limits;
mod members;
mod objects;
mod option_items;
mod option_parts;
mod reach;
mod rules;
mod values;
mod verdicts;

pub use form_sets::{put_listed_members, put_questions_objects};
pub use members::put_text;
pub use objects::{Known, put_question_object};
pub use values::put_script;

//! A page of HTML on a form set over its stores (own rule; HTML Living Standard).
#![tactic(auto)]

mod bounded;
mod contents;
mod counts;
mod forms;
mod heads;
pub mod laws;
mod page;
mod style;

pub use page::{PAGE_LIMIT, put_report, report_page};

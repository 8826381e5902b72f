//! Texts, links and places as they stand in a page of HTML (HTML Living Standard, 13.1 Writing HTML documents).
#![tactic(auto)]

mod links;
mod texts;

pub use links::put_link;
pub use texts::{
    put_html_bytes, put_html_char, put_html_shown, put_isolated_bytes, put_isolated_shown,
    put_title,
};

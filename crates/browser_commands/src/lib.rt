//! What commands do to a form set that is browsed, in the words of its code (own rule; configuration texts are those of
//! UEFI 2.8, 34.2.1 String Grammar).
#![tactic(auto)]

mod blocks;
mod browser;
mod change;
mod commands;
mod configuration;
mod defaults;
mod forms;
mod history;
mod opening;
mod sources;
mod submitting;
mod telling;
mod texts;
mod values;
mod varstores;

pub use browser::Browser;
pub use kept_conditions::Kept;
pub use texts::{put_refusal, put_refusal_at};

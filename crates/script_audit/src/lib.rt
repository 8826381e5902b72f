//! A script of `setup` that is run as a whole: all of its lines are answered with OK, or nothing is left of it (own rule).
#![tactic(auto)]

mod applying;
mod because;
mod changes;
mod depends;
pub mod laws;
mod lines;
mod reasons;
mod script;
mod sentences;
mod spelling;
mod stop;
mod unsubmitted;
mod values;
mod walk;
mod wanted;
mod words;

pub use applying::apply;

//! Conditions of a forms package in words (UEFI 2.8, 33.2.5.7 Expressions; the words are an own rule).
#![tactic(auto)]

mod condition;
pub mod laws;
mod leaf;
mod opening;
mod openings;
mod words;

pub use condition::ConditionText;

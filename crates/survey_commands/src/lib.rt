//! The command of `setup_audit` that is about all lists of a dump: it tells of each forms package how many of its questions may be changed
//! over its stores (own rule).
#![tactic(auto)]

mod asked;
mod lists;
mod packages;
mod sets;
pub mod survey;

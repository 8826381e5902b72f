//! All faults of a forms package of one pass: of what stands in its nodes among each other, of its stores, or of its questions (own
//! rule). Where setup refuses a package it tells the least.
#![tactic(auto)]

mod gathering;
mod met_rules;
mod questions;
mod references;
mod stores;

pub use questions::question_faults;
pub use references::reference_faults;
pub use stores::store_faults;

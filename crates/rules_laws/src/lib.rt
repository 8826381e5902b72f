//! That the chapters of `browser_rules` say what the contracts of the crates say, part by part; and that a forms package has no
//! fault exactly where it is a good one. Laws alone, no code that runs.
#![tactic(auto)]

pub mod defaults;
pub mod form_sets;
pub mod framing;
pub mod nodes;
pub mod opcodes;
pub mod pages;
pub mod policy;
pub mod question_faults;
pub mod questions;
pub mod reference_faults;
pub mod store_faults;
pub mod stores;
pub mod structure_faults;

//! That what opens a session, and what commands do to it, is what the chapters of `browser_rules` say. Laws alone, no code that
//! runs.
#![tactic(auto)]

pub mod opening;
pub mod renewals;
pub mod sessions;

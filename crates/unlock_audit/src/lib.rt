//! What opens the questions of a form set that may not be changed: commands of a session that were tried, a field that is written, or why
//! nothing does (own rule).
#![tactic(auto)]

mod answer;
mod asking;
mod constants;
pub mod laws;
mod lines;
mod moves;
mod objects;
mod reasons;
mod runs;
mod search;
mod tries;
mod unlocks;
mod values;
mod words;

pub use unlocks::put_unlock;

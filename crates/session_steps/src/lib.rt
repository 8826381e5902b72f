//! What opens a session, and what commands do to it, in the words of the code: what the contracts of `browser_commands` mean.
#![tactic(auto)]

mod reply;

pub use reply::{End, Reply, RunFault};

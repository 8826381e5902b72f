//! A session of the setup browser: a package list and the stores of its form set, which the commands of a script show
//! and change (own rule; configuration texts are those of UEFI 2.8, 34.2.1 String Grammar).
#![tactic(auto)]

mod browsed;
pub mod laws;
mod script;
mod session;

pub use browser_commands::{put_refusal, put_refusal_at};
pub use kept_conditions::Kept;
pub use session::Session;
pub use session_steps::{End, Reply, RunFault};

//! The lines of a script and the commands that they are (own rule).
#![tactic(auto)]

mod command;
pub mod laws;
mod limits;
mod line;

pub use command::{BadLine, Command, is_blank, read_line};
pub use limits::{LINE_LIMIT, SCRIPT_LIMIT};
pub use line::{Fed, LineBuffer};

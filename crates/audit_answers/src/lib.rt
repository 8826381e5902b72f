//! How the commands of `setup_audit` end, what their writers hold then, and which list they are given (own rule).
#![tactic(auto)]

mod ended;
mod given;
mod given_files;
mod listing;
mod writing;

pub use ended::Ended;
pub use given::{GivenList, NoList};
pub use given_files::last_given;
pub use listing::{given_list, refuse_list};
pub use writing::{Answers, Output, answers, commit, finish, refuse, told, told_with_file};

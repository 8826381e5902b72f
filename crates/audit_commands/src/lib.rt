//! The commands of `setup_audit` that are about lists and questions: each opens its files, and tells what it finds in their bytes
//! (own rule).
#![tactic(auto)]

pub mod apply;
mod auditing;
pub mod check;
pub mod difference;
mod givens;
mod judged;
pub mod opcodes;
mod opened;
pub mod question;
pub mod questions;
pub mod report;
pub mod split;
pub mod unlock;

//! That objects of audits are read back as their facts, command by command, and that lines and objects stay one line each. Laws alone,
//! no code that runs.
#![tactic(auto)]

pub mod apply;
pub mod check;
pub mod diff;
pub mod export;
pub mod lines;
pub mod opcodes;
pub mod questions;
pub mod split;
pub mod stores;
pub mod survey;
pub mod unlock;

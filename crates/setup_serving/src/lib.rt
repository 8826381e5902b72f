//! What `setup` does over bytes that are given: a session runs a script, and the image that it leaves is written (own rule).
#![tactic(auto)]

mod serving;

pub use serving::{Ended, Served, serve};

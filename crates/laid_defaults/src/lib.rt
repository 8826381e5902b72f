//! The defaults of questions, laid over stores (UEFI 2.8, 33.2.5.8 Defaults; their order is an own rule).
#![tactic(auto)]

mod laying;
mod setup;

pub use laying::lay_defaults;
pub use setup::Setup;

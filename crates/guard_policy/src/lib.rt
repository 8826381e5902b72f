//! What is seen, what may be changed and submitted, and which opcode forbids it (UEFI 2.8, 33.2.5.10 Forms Processing; which of
//! several opcodes is named is an own rule).
#![tactic(auto)]

mod around;
mod changeable;
mod conditions;
mod covering;
mod decision_conditions;
mod decisions;
mod denial;
mod effects;
pub mod laws;
mod open_values;
mod option_conditions;
mod policy;
mod removed;
mod standing;
mod submission;
mod support;
mod support_of;
mod values;
mod warnings;

pub use conditions::{Conditions, Evaluated};
pub use denial::Denial;
pub use effects::Effects;
pub use policy::Policy;
pub use removed::Removed;
pub use standing::{SeenStatement, Standing};
pub use support::Decision;
pub use support_of::{SupportAt, SupportOf};
pub use warnings::{Warning, Warnings};

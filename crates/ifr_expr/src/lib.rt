//! Expressions of a forms package: their trees, and their values over the answers of questions (UEFI 2.8, 33.2.5.7
//! Expressions; what is refused, and how rules are found, are own rules).
#![tactic(auto)]

mod counting;
mod evaluation;
mod expr;
mod given;
pub mod laws;
mod names;
mod opcodes;
mod operations;
mod operators;
mod references;
mod rule_values;
mod rules;
mod support;
mod value;

pub use expr::Expr;
pub use names::{Name, Names};
pub use operators::Operators;
pub use references::{RuleReference, RuleReferences};
pub use rule_values::RuleValues;
pub use rules::{NumberedRules, Rules};
pub use support::Support;
pub use value::{Answers, Value};

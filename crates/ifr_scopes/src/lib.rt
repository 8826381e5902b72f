//! A forms package that was read: its forms, statements, guards, conditions and rules, and what stands around each (UEFI 2.8, 33.3.8
//! Forms Package; what a LOCKED locks and how rules are found are own rules).
#![tactic(auto)]

mod all_conditions;
mod all_statements;
mod any_condition;
mod around;
mod condition_view;
mod conditions_in;
mod conditions_near;
mod conditions_of;
mod default_view;
mod dependence;
mod form;
mod form_set;
mod forms;
mod giving;
mod guard;
mod guards_at;
mod guards_in;
mod guards_of;
mod guards_outward;
pub mod laws;
mod locks;
mod no_submits;
mod option_view;
mod options_of;
mod rule;
mod statement;
mod statements_of;
mod varstore;

pub use all_conditions::AllConditions;
pub use all_statements::AllStatements;
pub use any_condition::AnyCondition;
pub use around::Around;
pub use condition_view::{ConditionOp, ConditionView, ConditionViews};
pub use conditions_in::ConditionsIn;
pub use conditions_of::ConditionsOf;
pub use default_view::{DefaultView, Defaults};
pub use dependence::Dependence;
pub use form::{Form, FormViews};
pub use form_set::FormSet;
pub use forms::Forms;
pub use giving::GivingStatements;
pub use guard::{Guard, GuardViews};
pub use guards_at::GuardsAt;
pub use guards_in::GuardsIn;
pub use guards_of::GuardsOf;
pub use guards_outward::GuardsOutward;
pub use locks::{LockView, Locks};
pub use no_submits::{NoSubmit, NoSubmits};
pub use option_view::{OptionView, Options};
pub use options_of::OptionsOf;
pub use rule::{RuleView, RuleViews};
pub use statement::{Statement, StatementKind, Statements};
pub use statements_of::StatementsOf;
pub use varstore::{StoreOp, Varstore, Varstores};

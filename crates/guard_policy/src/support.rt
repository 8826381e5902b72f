//! On which questions decisions depend.

use hii_questions::Question;
use ifr_scopes::{Form, Statement};

/// What is decided, and of what: each is a call of the policy.
#[derive(Clone, Copy)]
pub enum Decision<'a> {
    /// Whether a statement is seen.
    Listed(Statement<'a>),
    /// Whether a statement may be changed.
    Changeable(Statement<'a>),
    /// Whether a question may be given a value of its options.
    OptionOpen(Question<'a>, u64),
    /// Whether a form is opened.
    Opens(Form<'a>),
    /// Whether the value of a question is consistent.
    Consistent(Question<'a>),
    /// Whether the stores may be submitted.
    MaySubmit,
    /// Of what the value of a question warns.
    Warnings(Question<'a>),
}

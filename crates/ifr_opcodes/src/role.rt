//! What opcodes are, as far as their numbers tell it.

ghost use Rattle.std.specs.Prelude.{◌≡◌};
ghost use Rattle.ifr_opcodes.specs.code.Roles as roles;

use crate::columns::ROLES;

/// What an opcode is, as far as its number tells it.
#[derive(Clone, Copy)]
pub(crate) enum Role {
    /// It is not known.
    Unknown,
    /// It is known, and none of the following.
    Other,
    /// A store.
    Store,
    /// A condition that a question has beside its options.
    Condition,
    /// An opcode of no effect.
    Ignored,
    /// A statement that is no question.
    Statement,
    /// A question.
    Question,
    /// An operator that takes no operand.
    Leaf,
    /// An operator that takes one operand.
    Unary,
    /// An operator that takes two operands.
    Binary,
}

impl Role {
    /// What the opcodes of a number are.
    #[tactic(auto, unfolding(crate::specs::code::Roles::role_of))]
    pub(crate) fn of(code: u8) -> Role
        ensures { result ≡ roles.role_of code }
    {
        ROLES[usize::from(code)]
    }

    /// Whether it is known.
    pub(crate) fn is_known(self) -> bool
        ensures { result ≡ roles.is_known self }
    {
        match self {
            Role::Unknown => false,
            _ => true,
        }
    }

    /// Whether it is a question.
    pub(crate) fn is_question(self) -> bool
        ensures { result ≡ roles.is_question self }
    {
        matches!(self, Role::Question)
    }

    /// Whether it is a statement.
    pub(crate) fn is_statement(self) -> bool
        ensures { result ≡ roles.is_statement self }
    {
        matches!(self, Role::Statement | Role::Question)
    }

    /// Whether it is a store.
    pub(crate) fn is_store(self) -> bool
        ensures { result ≡ roles.is_store self }
    {
        matches!(self, Role::Store)
    }

    /// Whether it is a condition that a question has beside its options.
    pub(crate) fn is_condition(self) -> bool
        ensures { result ≡ roles.is_condition self }
    {
        matches!(self, Role::Condition)
    }

    /// Whether it has no effect.
    pub(crate) fn is_ignored(self) -> bool
        ensures { result ≡ roles.is_ignored self }
    {
        matches!(self, Role::Ignored)
    }

    /// How many operands it takes, if it is an operator.
    pub(crate) fn operands(self) -> Option<usize>
        ensures { result ≡ roles.operands self }
    {
        match self {
            Role::Leaf => Some(0),
            Role::Unary => Some(1),
            Role::Binary => Some(2),
            _ => None,
        }
    }
}

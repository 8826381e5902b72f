//! Conditions, be they of guards or of questions.

ghost use Rattle.std.specs.Prelude.{◌≡◌};
ghost use Rattle.ifr_expr.specs.code.Expressions.{tree_of};
ghost use Rattle.ifr_scopes.specs.code.AnyConditions.{any_condition_node};
ghost use Rattle.ifr_nodes.specs.NodeExpressions.{expression_tree};
ghost use Rattle.ifr_nodes.specs.Nodes.{this_of};

use crate::condition_view::ConditionView;
use crate::guard::Guard;
use ifr_expr::Expr;

/// A condition of a package: that of a guard, or one of a question (UEFI 2.8, 33.3.8.3).
#[derive(Clone, Copy)]
pub enum AnyCondition<'a> {
    /// The condition of a guard.
    Guard(Guard<'a>),
    /// A condition of a question.
    Question(ConditionView<'a>),
}

impl<'a> AnyCondition<'a> {
    /// The place of its opcode, in bytes from the package's header.
    pub fn place(self) -> u32
        ensures { result ≡ (any_condition_node self.entry).place }
    {
        match self {
            AnyCondition::Guard(guard) => guard.place(),
            AnyCondition::Question(condition) => condition.place(),
        }
    }

    /// The id of the question in whose scope it stands, or 0.
    pub fn this(self) -> u16
        ensures { result ≡ this_of (any_condition_node self.entry) }
    {
        match self {
            AnyCondition::Guard(guard) => guard.this(),
            AnyCondition::Question(condition) => condition.this(),
        }
    }

    /// What is to hold: the expression with which its opcode's scope begins.
    #[inline(always)]
    pub fn condition(self) -> Expr<'a>
        ensures { tree_of result ≡ expression_tree (any_condition_node self.entry) }
    {
        match self {
            AnyCondition::Guard(guard) => guard.condition(),
            AnyCondition::Question(condition) => condition.condition(),
        }
    }
}

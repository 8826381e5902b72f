//! What the operators of an expression name.

ghost use Rattle.std.specs.Prelude.{◌≡◌};
ghost use Rattle.ifr_opcodes.specs.code.Ops.{op_of};
ghost use Rattle.ifr_opcodes.specs.code.Views.{operator};
ghost use Rattle.ifr_expr.specs.code.Named.{names_by};
ghost use Rattle.ifr_expr.specs.code.Names.{names_of};

use crate::opcodes::Opcodes;
use crate::operators::Operators;
use crate::references::RuleReference;
use ifr_opcodes::{ExprOp, LeafOp};

/// What an operator names, so that the value of its expression depends on it.
#[derive(Clone, Copy, Debug, PartialEq, Eq)]
pub enum Name {
    /// The question of an id.
    Question(u16),
    /// The question in whose scope the expression stands.
    This,
    /// A rule.
    Rule(RuleReference),
}

/// What one operator names.
#[derive(Clone, Copy, PartialEq, Eq)]
enum Named {
    Nothing,
    One(Name),
    Two(u16, u16),
}

// What an operator names, in its order.
#[tactic(auto, unfolding(crate::specs::Support::ids_of))]
fn named_by(op: ExprOp) -> Named
    ensures { names_by result ≡ names_of (op_of (operator op.entry)) }
{
    match op {
        ExprOp::Leaf(LeafOp::EqIdVal(op)) => Named::One(Name::Question(op.question())),
        ExprOp::Leaf(LeafOp::EqIdId(op)) => Named::Two(op.first(), op.second()),
        ExprOp::Leaf(LeafOp::EqIdValList(op)) => Named::One(Name::Question(op.question())),
        ExprOp::Leaf(LeafOp::QuestionRef(op)) => Named::One(Name::Question(op.question())),
        ExprOp::Leaf(LeafOp::This(_)) => Named::One(Name::This),
        ExprOp::RuleRef(op) => Named::One(Name::Rule(RuleReference {
            id: op.rule(),
            place: op.op.place,
        })),
        _ => Named::Nothing,
    }
}

/// What an expression names, as far as it is left, by place.
#[derive(Clone, Drop)]
pub struct Names<'a> {
    pub(crate) ops: Operators<'a>,
    pub(crate) second: Option<u16>,
}

impl<'a> Names<'a> {
    ghost use Rattle.std.specs.Iterator.{YieldsFirstBy};
    ghost use Rattle.ifr_expr.specs.code.NamesLeft.{names_left};

    // Goes to the next.
    fn step(&mut self) -> Option<Name>
        ensures { YieldsFirstBy (λ name. name) names_left self.old result self.new }
    {
        if let Some(id) = self.second.take() {
            return Some(Name::Question(id));
        }
        while let Some(op) = self.ops.next() {
            match named_by(op) {
                Named::Nothing => {}
                Named::One(name) => return Some(name),
                Named::Two(first, second) => {
                    self.second = Some(second);
                    return Some(Name::Question(first));
                }
            }
        }
        None
    }
}

impl<'a> Default for Names<'a> {
    ghost use Rattle.std.specs.Prelude.{◌≡◌, []};
    ghost use Rattle.ifr_expr.specs.code.NamesLeft.{names_left};

    ghost is_default = { λ it. names_left it ≡ [] };

    /// Nothing.
    fn default() -> Names<'a> {
        let ops = Opcodes::over(&[], 0);
        Names {
            ops: Operators { ops },
            second: None,
        }
    }
}

impl<'a> Iterator for Names<'a> {
    ghost use Rattle.std.specs.Iterator.{YieldsFirstBy, item_count};
    ghost use Rattle.ifr_expr.specs.code.NamesLeft.{names_left};

    type Item = Name;

    ghost next_gives = { YieldsFirstBy (λ name. name) names_left };

    ghost remaining = { item_count names_left };

    fn next(&mut self) -> Option<Name> {
        self.step()
    }
}

//! The operators of an expression that was checked.

ghost use Rattle.ifr_expr.specs.code.Checked.{AreSized, AreSized-prop};
ghost use Rattle.ifr_expr.specs.code.OpcodesLeft.{opcodes_left};

use crate::opcodes::Opcodes;
use ifr_opcodes::{ExprOp, Op};

/// The operators that are left of an expression, by place.
#[derive(Clone, Copy)]
pub struct Operators<'a> {
    pub(crate) ops: Opcodes<'a>,
    pub ghost sized: { AreSized (opcodes_left ops) } by { AreSized-prop (opcodes_left ops) },
}

impl<'a> Operators<'a> {
    ghost use Rattle.std.specs.Prelude.{◌≡◌, true, IfSome, []};
    ghost use Rattle.ifr_opcodes.specs.code.Ops.{op_of};
    ghost use Rattle.ifr_opcodes.specs.code.Views.{operator};
    ghost use Rattle.std.specs.Iterator.{YieldsFirstBy};
    ghost use Rattle.ifr_expr.specs.code.Checked.{IsSized};
    ghost use Rattle.ifr_expr.specs.code.Expressions.{operators_left};

    // Whether no byte is left, and so no operator.
    pub(crate) fn is_done(&self) -> bool
        ensures { result ≡ true → operators_left self.now ≡ [] }
    {
        self.ops.is_done()
    }

    // Goes to the opcode of the next.
    #[inline(always)]
    pub(crate) fn next_op(&mut self) -> Option<Op<'a>>
        ensures next { YieldsFirstBy op_of operators_left self.old result self.new }
        ensures sized { IfSome result (λ op. IsSized (op_of op)) }
    {
        self.ops.next()
    }

    // Goes to the next.
    #[inline(always)]
    fn step(&mut self) -> Option<ExprOp<'a>>
        ensures { YieldsFirstBy (λ view. op_of (operator view)) operators_left self.old
            result self.new }
    {
        let Some(op) = self.next_op() else {
            return None;
        };
        Some(ExprOp::of(op))
    }
}

impl<'a> Iterator for Operators<'a> {
    ghost use Rattle.std.specs.Iterator.{YieldsFirstBy, item_count};
    ghost use Rattle.ifr_opcodes.specs.code.Ops.{op_of};
    ghost use Rattle.ifr_opcodes.specs.code.Views.{operator};
    ghost use Rattle.ifr_expr.specs.code.Expressions.{operators_left};

    type Item = ExprOp<'a>;

    ghost next_gives = { YieldsFirstBy (λ view. op_of (operator view)) operators_left };

    ghost remaining = { item_count operators_left };

    #[inline(always)]
    fn next(&mut self) -> Option<ExprOp<'a>> {
        self.step()
    }
}

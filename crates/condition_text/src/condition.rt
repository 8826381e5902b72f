//! The text of a condition.

ghost use Rattle.std.specs.Prelude.{◌≡◌, ◌++◌};
ghost use Rattle.hii_bytes.specs.Watching.{Puts};
ghost use Rattle.ifr_opcodes.specs.code.Ops.{bytes_of, op_of};
ghost use Rattle.ifr_opcodes.specs.code.Views.{leaf_operator, operator};
ghost use Rattle.ifr_expr.specs.code.Expressions.{operators_left, tree_of};
ghost use Rattle.condition_text.specs.Senses.{leaf_sense, sense};
ghost use Rattle.condition_text.specs.Texts.{is_short, text};
ghost use Rattle.condition_text.specs.code.Openings.{spaced_text};
ghost use Rattle.condition_text.specs.code.Streams.{close_before, from_last, openings, said_of, text_before, word_before};

use crate::leaf::{put_leaf, put_rule_ref};
use crate::opening::is_last;
use crate::openings::{Openings, front_of};
use crate::words::binary_word;
use hii_bytes::Watched;
use ifr_expr::{Expr, Operators};
use ifr_opcodes::{Binary, ExprOp, LeafOp};
use std::io::Write;

// Whether an operator that takes no operands, and is no reference to a rule, stands as an operand without parentheses.
fn is_short(op: LeafOp<'_>) -> bool
    ensures { result ≡ is_short (leaf_sense (bytes_of (leaf_operator op.entry))) }
{
    match op {
        LeafOp::EqIdVal(_) => false,
        LeafOp::EqIdId(_) => false,
        LeafOp::EqIdValList(_) => false,
        LeafOp::QuestionRef(_) => true,
        LeafOp::Uint(_) => true,
        LeafOp::Constant(_) => true,
        LeafOp::This(_) => true,
    }
}

// Writes an operator that takes no operands, in parentheses where it is an operand and needs them.
fn put_operand<W: Write>(out: &mut Watched<W>, op: LeafOp<'_>, rest: Operators<'_>)
    ensures { Puts W.contents out.old out.new
        (text_before (leaf_sense (bytes_of (leaf_operator op.entry))) (operators_left rest.entry)) }
{
    if is_short(op) || is_last(rest) {
        put_leaf(out, op);
        return;
    }
    out.put(b"(");
    put_leaf(out, op);
    out.put(b")");
}

// Writes the word of an operator between spaces, if there is one.
fn put_spaced<W: Write>(out: &mut Watched<W>, word: Option<Binary>)
    ensures { Puts W.contents out.old out.new (spaced_text word) }
{
    if let Some(operator) = word {
        out.put(b" ");
        out.put(binary_word(operator));
        out.put(b" ");
    }
}

// Writes what stands before an operand, by the operators behind the first of its own.
fn put_before<W: Write>(out: &mut Watched<W>, rest: Operators<'_>)
    ensures { Puts W.contents out.old out.new
        (word_before 0 (operators_left rest.entry) ++ from_last (openings 0 (operators_left rest.entry))) }
{
    let front = front_of(rest);
    put_spaced(out, front.word);
    Openings::of(rest).put_first(front.opened, out);
}

// Writes the parenthesis behind an operator that takes operands, if it is not the last.
fn put_close<W: Write>(out: &mut Watched<W>, rest: Operators<'_>)
    ensures { Puts W.contents out.old out.new (close_before (operators_left rest.entry)) }
{
    if !is_last(rest) {
        out.put(b")");
    }
}

// Writes what stands for an operator, by those behind it.
fn put_operator<W: Write>(out: &mut Watched<W>, op: ExprOp<'_>, rest: Operators<'_>)
    ensures { Puts W.contents out.old out.new (said_of (op_of (operator op.entry)) (operators_left rest.entry)) }
{
    match op {
        ExprOp::Leaf(op) => {
            put_before(out, rest);
            put_operand(out, op, rest);
        }
        ExprOp::RuleRef(op) => {
            put_before(out, rest);
            put_rule_ref(out, op);
        }
        ExprOp::Unary(_) => put_close(out, rest),
        ExprOp::Binary(_) => put_close(out, rest),
    }
}

/// What an expression says in words.
#[derive(Clone, Copy)]
pub struct ConditionText<'a> {
    expr: Expr<'a>,
}

impl<'a> ConditionText<'a> {
    ghost use Rattle.condition_text.specs.code.Conditions.{words_of};

    /// The text of an expression.
    pub fn of(expr: Expr<'a>) -> ConditionText<'a>
        ensures { words_of result ≡ text (sense (tree_of expr.entry)) }
    {
        ConditionText { expr }
    }

    /// Writes the text. It takes no memory: what stands before an operand is looked for among the operators behind it, of
    /// which each is passed once for each operand in which it stands as a right one, 64 times at most, and by the logarithm of
    /// their count where many operators begin with one operand.
    pub fn put<W: Write>(&self, out: &mut Watched<W>)
        ensures { Puts W.contents out.old out.new (words_of self.now) }
    {
        let mut ops = self.expr.operators();
        while let Some(op) = ops.next() {
            put_operator(out, op, ops);
        }
    }
}

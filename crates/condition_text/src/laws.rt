//! Laws of the texts of conditions.

ghost use Rattle.std.specs.Prelude.{◌≡◌, ℕ, ◌<◌};
ghost use Rattle.std.specs.List.{AllByRecursion};
ghost use Rattle.ifr_opcodes.specs.code.Ops.{bytes_of};
ghost use Rattle.ifr_expr.specs.code.Expressions.{tree_of};
ghost use Rattle.ifr_expr.specs.Meaning.{value_over};
ghost use Rattle.ifr_expr.specs.Trees.{Tree};
ghost use Rattle.ifr_expr.specs.Values.{Value};
ghost use Rattle.condition_text.specs.SenseValues.{value_of_sense};
ghost use Rattle.condition_text.specs.Senses.{Sense, IsGood, sense};
ghost use Rattle.condition_text.specs.Texts.{text};

use hii_bytes::laws::are_bytes;
use ifr_expr::Expr;
use ifr_opcodes::Op;

/// Two senses with the same text are the same sense.
pub fn a_text_says_one_thing()
    ensures { (s t : Sense) → IsGood s → IsGood t → text s ≡ text t → s ≡ t }
{}

/// What an expression says decides its value, where the rule of an id has one value: so two expressions with one text have one.
pub fn what_is_said_decides_the_value()
    ensures value { (rules answers : ℕ → Value) (this : ℕ) (t : Tree)
        → value_over (λ id place. rules id) answers this t ≡ value_of_sense rules answers this (sense t) }
    ensures texts { (rules answers : ℕ → Value) (this : ℕ) (s t : Tree) → IsGood (sense s) → IsGood (sense t)
        → text (sense s) ≡ text (sense t)
        → value_over (λ id place. rules id) answers this s ≡ value_over (λ id place. rules id) answers this t }
{}

/// What a checked expression says is good.
pub fn checked_expressions_have_good_senses(expr: Expr<'_>)
    ensures { IsGood (sense (tree_of expr.entry)) }
{
    let mut ops = expr.operators();
    while let Some(op) = ops.next() {
        opcodes_are_bytes(op.op());
    }
}

// Each number that spells an opcode fits a byte.
fn opcodes_are_bytes(op: Op<'_>)
    ensures { AllByRecursion (λ byte. byte < 256) (bytes_of op.entry) }
{
    are_bytes(op.body);
}

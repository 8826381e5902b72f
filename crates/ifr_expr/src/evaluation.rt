//! The values of expressions.

ghost use Rattle.std.specs.Prelude.{◌≡◌, ◌≤◌, ◌+◌, ℕ, Some, List, [], ◌∷◌, length, option_map, IfSome};
ghost use Rattle.ifr_opcodes.specs.code.Ops.{op_of};
ghost use Rattle.ifr_opcodes.specs.code.Views.{operator, leaf_operator, values_left};
ghost use Rattle.ifr_expr.specs.Meaning as meaning;
ghost use Rattle.ifr_expr.specs.code.Rules as ordering;
ghost use Rattle.ifr_expr.specs.code.RuleValues.{AreValues, IsNumberOf};
ghost use Rattle.ifr_expr.specs.code.Stacks.{Fit, operand_value, values_behind};
ghost use Rattle.ifr_expr.specs.Values as spec;
ghost use Rattle.ifr_expr.specs.code.Views.{value_of, outcome_value};
ghost use Rattle.ifr_expr.specs.code.Expressions.{tree_of, end_of, operators_left};
ghost use Rattle.ifr_expr.specs.Trees.{takes};

use crate::counting::MAX_VALUES;
use crate::expr::Expr;
use crate::operations::{binary, constant, same_numbers, unary};
use crate::operators::Operators;
use crate::references::RuleReference;
use crate::rule_values::Memo;
use crate::value::{Operand, Outcome, Value};
use ifr_opcodes::{ExprOp, LeafOp, ListValues};

/// How many values wait for others at most in an expression of few bytes.
const FEW: usize = 8;

/// What room holds where no value waits.
const NOTHING: Operand = Operand::Made(Outcome::Undefined);

/// What expressions are evaluated over: answers and rules.
pub(crate) trait World {
    ghost answers: { Self → ℕ → spec.Value };

    ghost rules: { Self → List meaning.Rule };

    /// What the question of an id answers; id 0 has no answer.
    fn answer(&self, question: u16) -> Value<'_>
        ensures { value_of result ≡ meaning.answered (answers self.now) question };

    /// What the question of an id answers where a number is wanted; id 0 has no answer.
    fn number(&self, question: u16) -> Option<u64>
        ensures { result ≡ spec.as_number (meaning.answered (answers self.now) question) };

    /// The expression of the rule that a reference names.
    fn rule(&self, id: u8, place: u32) -> Option<Expr<'_>>
        ensures ordered { ordering.AreOrdered (rules self.now) }
        ensures named { option_map tree_of result
            ≡ option_map (λ r. r.tree) (ordering.named (rules self.now) id place) }
        ensures before { IfSome result (λ expr. end_of expr ≤ place) };

    /// The number of that rule, where it is known.
    fn rule_number(&self, id: u8, place: u32) -> Option<usize>
        ensures ordered { IfSome result (λ _. ordering.AreOrdered (rules self.now)) }
        ensures number { IfSome result (IsNumberOf (rules self.now) id place) };
}

// Whether an answer is one of some numbers, where it is a number.
fn one_of(answer: Option<u64>, mut numbers: ListValues<'_>) -> Outcome
    ensures { outcome_value result ≡ spec.is_in (values_left numbers.entry) answer }
{
    let Some(wanted) = answer else {
        return Outcome::Undefined;
    };
    while let Some(number) = numbers.next() {
        if u64::from(number) == wanted {
            return Outcome::Boolean(true);
        }
    }
    Outcome::Boolean(false)
}

// The value of an operator that takes no operands and is no reference to a rule.
#[tactic(auto, unfolding(crate::specs::Meaning::leaf_value))]
#[inline(always)]
fn leaf<W: World>(world: &W, op: LeafOp<'_>, this: u16) -> Operand
    ensures { (rules : ℕ → ℕ → spec.Value)
        → operand_value (W.answers world.now) result
        ≡ meaning.leaf_value rules (W.answers world.now) this (op_of (leaf_operator op.entry)) }
{
    match op {
        LeafOp::EqIdVal(op) => Operand::Made(same_numbers(
            world.number(op.question()),
            Some(u64::from(op.value())),
        )),
        LeafOp::EqIdId(op) => Operand::Made(same_numbers(
            world.number(op.first()),
            world.number(op.second()),
        )),
        LeafOp::EqIdValList(op) => {
            Operand::Made(one_of(world.number(op.question()), op.values()))
        }
        LeafOp::QuestionRef(op) => Operand::Answer(op.question()),
        LeafOp::This(_) => Operand::Answer(this),
        LeafOp::Uint(op) => Operand::Made(Outcome::Number(op.value())),
        LeafOp::Constant(op) => Operand::Made(constant(op.constant)),
    }
}

// The value that an operand stands for.
fn resolve<W: World>(world: &W, operand: Operand) -> Value<'_>
    ensures { value_of result ≡ operand_value (W.answers world.now) operand }
{
    match operand {
        Operand::Made(outcome) => outcome.value(),
        Operand::Answer(question) => world.answer(question),
    }
}

// The value of a reference to a rule: that of the rule's expression.
#[cycle(evaluation)]
fn referred<W: World, M: Memo>(world: &W, reference: RuleReference, memo: &mut M) -> Operand
    requires { AreValues (W.rules world.now) (W.answers world.now) (M.kept memo.old) }
    ensures value { operand_value (W.answers world.now) result
        ≡ meaning.rule_values (W.rules world.now) (W.answers world.now) reference.id
        reference.place }
    ensures kept { AreValues (W.rules world.now) (W.answers world.now) (M.kept memo.new) }
{
    match world.rule(reference.id, reference.place) {
        Some(rule) => evaluate(world, rule, 0, memo),
        None => Operand::Made(Outcome::Undefined),
    }
}

// The value of a reference to a rule: what is kept of the rule, or its value, which is then kept.
#[cycle(evaluation)]
fn rule_value<W: World, M: Memo>(world: &W, reference: RuleReference, memo: &mut M) -> Operand
    requires { AreValues (W.rules world.now) (W.answers world.now) (M.kept memo.old) }
    ensures value { operand_value (W.answers world.now) result
        ≡ meaning.rule_values (W.rules world.now) (W.answers world.now) reference.id
        reference.place }
    ensures kept { AreValues (W.rules world.now) (W.answers world.now) (M.kept memo.new) }
{
    let Some(number) = world.rule_number(reference.id, reference.place) else {
        return referred(world, reference, memo);
    };
    if let Some(value) = memo.value(number) {
        return value;
    }
    let value = referred(world, reference, memo);
    memo.keep(number, value);
    value
}

// The value of an operator that takes no operands.
#[cycle(evaluation)]
#[inline(always)]
fn operand_of<W: World, M: Memo>(world: &W, op: ExprOp<'_>, this: u16, memo: &mut M) -> Operand
    requires leaf { takes (op_of (operator op)) ≡ Some 0 }
    requires kept { AreValues (W.rules world.now) (W.answers world.now) (M.kept memo.old) }
    ensures value { operand_value (W.answers world.now) result
        ≡ meaning.leaf_value (meaning.rule_values (W.rules world.now) (W.answers world.now))
        (W.answers world.now) this (op_of (operator op.entry)) }
    ensures kept { AreValues (W.rules world.now) (W.answers world.now) (M.kept memo.new) }
{
    match op {
        ExprOp::Leaf(op) => leaf(world, op, this),
        ExprOp::RuleRef(op) => {
            let reference = RuleReference {
                id: op.rule(),
                place: op.op.place,
            };
            rule_value(world, reference, memo)
        }
        _ => unreachable!(),
    }
}

// The value of an expression, by that of its first operator and the operators behind it, over room for the values that wait
// for others.
#[cycle(evaluation)]
fn evaluate_behind<W: World, M: Memo>(
    world: &W,
    first: Operand,
    mut ops: Operators<'_>,
    this: u16,
    waiting: &mut [Operand],
    memo: &mut M,
) -> Operand
    requires fit { Fit (length waiting.old + 1) 1 (operators_left ops) }
    requires kept { AreValues (W.rules world.now) (W.answers world.now) (M.kept memo.old) }
    ensures value { values_behind
        (meaning.leaf_value (meaning.rule_values (W.rules world.now) (W.answers world.now))
        (W.answers world.now) this)
        (operand_value (W.answers world.now) first ∷ []) (operators_left ops.entry)
        ≡ operand_value (W.answers world.now) result ∷ [] }
    ensures kept { AreValues (W.rules world.now) (W.answers world.now) (M.kept memo.new) }
{
    let mut last = first;
    let mut count = 0;
    while let Some(op) = ops.next() {
        last = match op {
            ExprOp::Unary(op) => Operand::Made(unary(op.operator, resolve(world, last))),
            ExprOp::Binary(op) => {
                count -= 1;
                let left = waiting[count];
                Operand::Made(binary(op.operator, resolve(world, left), resolve(world, last)))
            }
            _ => {
                waiting[count] = last;
                count += 1;
                operand_of(world, op, this, memo)
            }
        };
    }
    last
}

// The same, where many values may wait. A function makes its room where it begins, so few are to pay for this one.
#[cycle(evaluation)]
fn evaluate_wide<W: World, M: Memo>(
    world: &W,
    first: Operand,
    ops: Operators<'_>,
    this: u16,
    memo: &mut M,
) -> Operand
    requires fit { Fit 65 1 (operators_left ops) }
    requires kept { AreValues (W.rules world.now) (W.answers world.now) (M.kept memo.old) }
    ensures value { values_behind
        (meaning.leaf_value (meaning.rule_values (W.rules world.now) (W.answers world.now))
        (W.answers world.now) this)
        (operand_value (W.answers world.now) first ∷ []) (operators_left ops.entry)
        ≡ operand_value (W.answers world.now) result ∷ [] }
    ensures kept { AreValues (W.rules world.now) (W.answers world.now) (M.kept memo.new) }
{
    evaluate_behind(world, first, ops, this, &mut [NOTHING; MAX_VALUES], memo)
}

/// The value of an expression, with values of rules over the same answers, which are used and added to.
#[cycle(evaluation)]
pub(crate) fn evaluate<W: World, M: Memo>(
    world: &W,
    expr: Expr<'_>,
    this: u16,
    memo: &mut M,
) -> Operand
    requires { AreValues (W.rules world.now) (W.answers world.now) (M.kept memo.old) }
    ensures value { operand_value (W.answers world.now) result
        ≡ meaning.value (W.rules world.now) (W.answers world.now) this (tree_of expr.entry) }
    ensures kept { AreValues (W.rules world.now) (W.answers world.now) (M.kept memo.new) }
{
    let mut ops = expr.operators();
    let first = operand_of(world, ops.next().unwrap(), this, memo);
    if ops.is_done() {
        return first;
    }
    if expr.needs_few(FEW + 1) {
        evaluate_behind(world, first, ops, this, &mut [NOTHING; FEW], memo)
    } else {
        evaluate_wide(world, first, ops, this, memo)
    }
}

//! What the questions of a caller answer, with its rules.

ghost use Rattle.std.specs.Prelude.{◌≡◌};
ghost use Rattle.ifr_expr.specs.code.Expressions.{tree_of};
ghost use Rattle.ifr_expr.specs.Meaning as meaning;
ghost use Rattle.ifr_expr.specs.Meaning.{answered};
ghost use Rattle.ifr_expr.specs.Values as spec;
ghost use Rattle.ifr_expr.specs.code.RuleValues.{AreValues, kept_under};
ghost use Rattle.ifr_expr.specs.code.Stacks.{operand_value};
ghost use Rattle.ifr_expr.specs.code.Views.{value_of};

use crate::evaluation::{World, evaluate};
use crate::expr::Expr;
use crate::rule_values::{NoValues, RuleValues};
use crate::rules::{NumberedRules, Rules};
use crate::value::{Answers, Operand, Value};
use std::marker::PhantomData;

/// Answers and rules, which outlive it.
#[derive(Clone, Copy)]
struct Given<'s, 'a, A, R> {
    answers: &'s A,
    rules: &'s R,
    list: PhantomData<&'a [u8]>,
}

// What the question of an id answers; id 0 has no answer.
fn answer<'v, A: Answers<'v>>(answers: &A, question: u16) -> Value<'v>
    ensures { value_of result ≡ answered (A.answers answers.now) question }
{
    if question == 0 {
        return Value::Undefined;
    }
    answers.answer(question)
}

// What the question of an id answers where a number is wanted; id 0 has no answer.
fn number<'v, A: Answers<'v>>(answers: &A, question: u16) -> Option<u64>
    ensures { result ≡ spec.as_number (answered (A.answers answers.now) question) }
{
    if question == 0 {
        return None;
    }
    answers.number(question)
}

impl<'s, 'a, A: Answers<'a>, R: Rules<'a>> World for Given<'s, 'a, A, R> {
    ghost answers = { λ given. A.answers given.answers.now };

    ghost rules = { λ given. R.rules given.rules.now };

    fn answer(&self, question: u16) -> Value<'_> {
        let value: Value<'a> = answer(self.answers, question);
        value
    }

    fn number(&self, question: u16) -> Option<u64> {
        number(self.answers, question)
    }

    fn rule(&self, id: u8, place: u32) -> Option<Expr<'_>> {
        let rule: Option<Expr<'a>> = self.rules.rule(id, place);
        rule
    }

    fn rule_number(&self, _id: u8, _place: u32) -> Option<usize> {
        None
    }
}

/// The same, where rules have numbers.
#[derive(Clone, Copy)]
struct Numbered<'s, 'a, A, R> {
    given: Given<'s, 'a, A, R>,
}

impl<'s, 'a, A: Answers<'a>, R: NumberedRules<'a>> World for Numbered<'s, 'a, A, R> {
    ghost answers = { λ numbered. A.answers numbered.given.answers.now };

    ghost rules = { λ numbered. R.rules numbered.given.rules.now };

    fn answer(&self, question: u16) -> Value<'_> {
        let value: Value<'a> = answer(self.given.answers, question);
        value
    }

    fn number(&self, question: u16) -> Option<u64> {
        number(self.given.answers, question)
    }

    fn rule(&self, id: u8, place: u32) -> Option<Expr<'_>> {
        let rule: Option<Expr<'a>> = self.given.rules.rule(id, place);
        rule
    }

    fn rule_number(&self, id: u8, place: u32) -> Option<usize> {
        self.given.rules.rule_number(id, place)
    }
}

// The value that an operand stands for.
fn resolved<'a, A: Answers<'a>>(answers: &A, operand: Operand) -> Value<'a>
    ensures { value_of result ≡ operand_value (A.answers answers.now) operand }
{
    match operand {
        Operand::Made(outcome) => outcome.value(),
        Operand::Answer(question) => answer(answers, question),
    }
}

/// The value of an expression.
pub(crate) fn value<'a, A: Answers<'a>, R: Rules<'a>>(
    expr: Expr<'a>,
    answers: &A,
    rules: &R,
    this: u16,
) -> Value<'a>
    ensures { value_of result ≡ meaning.value (R.rules rules.now) (A.answers answers.now) this
        (tree_of expr.entry) }
{
    let given = Given {
        answers,
        rules,
        list: PhantomData,
    };
    resolved(answers, evaluate(&given, expr, this, &mut NoValues {}))
}

/// The value of an expression, by values of rules over the same answers. Those that it asks for are kept there.
pub(crate) fn value_by<'a, A: Answers<'a>, R: NumberedRules<'a>>(
    expr: Expr<'a>,
    answers: &A,
    rules: &R,
    this: u16,
    values: &mut RuleValues,
) -> Value<'a>
    requires { AreValues (R.rules rules.now) (A.answers answers.now) (kept_under values.old) }
    ensures value { value_of result
        ≡ meaning.value (R.rules rules.now) (A.answers answers.now) this (tree_of expr.entry) }
    ensures kept { AreValues (R.rules rules.now) (A.answers answers.now) (kept_under values.new) }
{
    let given = Given {
        answers,
        rules,
        list: PhantomData,
    };
    resolved(answers, evaluate(&Numbered { given }, expr, this, values))
}

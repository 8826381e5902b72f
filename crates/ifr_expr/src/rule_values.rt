//! Values of rules, kept while answers stay.
//!
//! A rule has one value over answers, whoever names it: THIS in it has no answer. So it is evaluated once in a round, in which no
//! answer changes. Each value has the number of its round, so that a round begins without a walk over the rules.

ghost use Rattle.std.specs.Prelude.{◌≡◌, IfOk, length};
ghost use Rattle.ifr_expr.specs.code.RuleValues.{KeepsNothing, AreUpTo, kept_operand, kept_under};

use crate::value::{Operand, Outcome};
use std::alloc::{AllocError, Global};
use std::marker::Model;

/// Values of rules that may be known, by the numbers of the rules.
pub(crate) trait Memo {
    ghost use Rattle.std.specs.Prelude.{◌≡◌, ℕ, Option};
    ghost use Rattle.ifr_expr.specs.declared.value.Operand.{Operand};
    ghost use Rattle.ifr_expr.specs.code.RuleValues.{AddsValue};

    /// What is kept under each number.
    ghost kept: { Self → ℕ → Option Operand };

    /// The value of the rule of a number, if it is known.
    fn value(&self, number: usize) -> Option<Operand>
        ensures { result ≡ kept self.now number };

    /// Keeps the value of the rule of a number, where there is room for it.
    fn keep(&mut self, number: usize, value: Operand)
        ensures { AddsValue number value (kept self.old) (kept self.new) };
}

/// No values.
#[derive(Drop)]
pub(crate) struct NoValues {}

impl Memo for NoValues {
    ghost use Rattle.std.specs.Prelude.{None};

    ghost kept = { λ _ _. None };

    fn value(&self, _number: usize) -> Option<Operand> {
        None
    }

    fn keep(&mut self, _number: usize, _value: Operand) {}
}

/// What the value of a rule is.
#[derive(Clone, Copy)]
pub(crate) enum ValueKind {
    Undefined,
    True,
    False,
    Number,
    Answer,
}

/// The value of a rule, and the round in which it was found. It takes less room than an operand with its round.
#[derive(Clone, Copy)]
pub(crate) struct KeptValue {
    /// The number, if it is one.
    pub(crate) number: u64,
    pub(crate) round: u32,
    /// The id of the question that answers, if it is an answer.
    pub(crate) question: u16,
    pub(crate) kind: ValueKind,
}

/// What is kept of a rule whose value was not found yet.
const NOTHING: KeptValue = KeptValue {
    number: 0,
    round: 0,
    question: 0,
    kind: ValueKind::Undefined,
};

impl KeptValue {
    // A value that was found in a round.
    fn of(value: Operand, round: u32) -> KeptValue
        ensures value { kept_operand result ≡ value }
        ensures round { result.round ≡ round }
    {
        let mut kept = NOTHING;
        kept.round = round;
        match value {
            Operand::Made(Outcome::Undefined) => {}
            Operand::Made(Outcome::Boolean(true)) => kept.kind = ValueKind::True,
            Operand::Made(Outcome::Boolean(false)) => kept.kind = ValueKind::False,
            Operand::Made(Outcome::Number(number)) => {
                kept.kind = ValueKind::Number;
                kept.number = number;
            }
            Operand::Answer(question) => {
                kept.kind = ValueKind::Answer;
                kept.question = question;
            }
        }
        kept
    }

    // The value.
    fn value(self) -> Operand
        ensures { result ≡ kept_operand self }
    {
        match self.kind {
            ValueKind::Undefined => Operand::Made(Outcome::Undefined),
            ValueKind::True => Operand::Made(Outcome::Boolean(true)),
            ValueKind::False => Operand::Made(Outcome::Boolean(false)),
            ValueKind::Number => Operand::Made(Outcome::Number(self.number)),
            ValueKind::Answer => Operand::Answer(self.question),
        }
    }
}

/// The values of the rules of a form set that were found since answers changed last. They are seen as what is kept of each rule,
/// by place.
#[derive(Drop)]
pub struct RuleValues {
    values: Vec<KeptValue>,
    round: u32,
}

impl Model for RuleValues {
    ghost use Rattle.std.specs.Prelude.{List, Option, map};
    ghost use Rattle.ifr_expr.specs.declared.value.Operand.{Operand};
    ghost use Rattle.ifr_expr.specs.code.RuleValues.{in_round, AreUpTo};

    ghost Value = { List (Option Operand) };

    ghost view = { λ v. map (in_round v.round) v.values.items };

    ghost invariant = { λ v. AreUpTo v.round v.values.items };
}

// Forgets in which rounds values were found.
fn forget_rounds(values: &mut [KeptValue])
    ensures { AreUpTo 0 values.new }
{
    for kept in values.iter_mut() {
        kept.round = 0;
    }
}

impl RuleValues {
    /// Room for the values of so many rules, of which none is known.
    pub fn new(alloc: Global, count: usize) -> Result<RuleValues, AllocError>
        ensures room { IfOk result (λ values. length values ≡ count) }
        ensures nothing { IfOk result (λ values. KeepsNothing (kept_under values)) }
    {
        Ok(RuleValues {
            values: vec![in alloc; NOTHING; count]?,
            round: 1,
        })
    }

    /// Forgets all values: the answers may have changed.
    pub fn forget(&mut self)
        ensures room { length self.new ≡ length self.old }
        ensures nothing { KeepsNothing (kept_under self.new) }
    {
        match self.round.checked_add(1) {
            Some(next) => self.round = next,
            None => {
                forget_rounds(&mut self.values);
                self.round = 1;
            }
        }
    }
}

impl Memo for RuleValues {
    ghost kept = { kept_under };

    fn value(&self, number: usize) -> Option<Operand> {
        let kept = *self.values.get(number)?;
        if kept.round == self.round {
            Some(kept.value())
        } else {
            None
        }
    }

    fn keep(&mut self, number: usize, value: Operand) {
        if number < self.values.len() {
            self.values[number] = KeptValue::of(value, self.round);
        }
    }
}

//! What operators put before an operand with which their own first operand begins.

ghost use Rattle.std.specs.Prelude.{◌≡◌, ◌∷◌, ◌++◌, ◌+◌, ◌≤◌, ◌<◌, ◌^◌, drop, length, take};
ghost use Rattle.hii_bytes.specs.Watching.{Puts};
ghost use Rattle.ifr_expr.specs.code.Expressions.{operators_left};
ghost use Rattle.condition_text.specs.code.Openings.{opening_text, spaced_text, unary_text};
ghost use Rattle.condition_text.specs.code.Streams.{from_last, open_before, openings, word_before};

use crate::opening::{Opening, is_last};
use hii_bytes::Watched;
use ifr_expr::Operators;
use ifr_opcodes::{Binary, ExprOp, Unary};
use std::io::Write;

/// What stands before an operand.
#[derive(Clone, Copy)]
pub(crate) struct Front {
    /// How many operators put something before it.
    pub opened: usize,
    /// The operator whose right operand it is.
    pub word: Option<Binary>,
}

/// What stands before an operand, by the operators behind the first of its own.
pub(crate) fn front_of(rest: Operators<'_>) -> Front
    ensures opened { result.opened ≡ length (openings 0 (operators_left rest.entry)) }
    ensures word { spaced_text result.word ≡ word_before 0 (operators_left rest.entry) }
{
    let mut ops = rest;
    let mut opened: usize = 0;
    let mut beside: usize = 0;
    while let Some(op) = ops.next() {
        match op {
            ExprOp::Leaf(_) => beside += 1,
            ExprOp::RuleRef(_) => beside += 1,
            ExprOp::Unary(_) => {
                if beside == 0 {
                    opened += 1;
                }
            }
            ExprOp::Binary(op) => {
                if beside == 0 {
                    let word = Some(op.operator);
                    return Front { opened, word };
                }
                beside -= 1;
                if beside == 0 {
                    opened += 1;
                }
            }
        }
    }
    Front { opened, word: None }
}

/// What is left of what operators put before an operand, the nearest first.
#[derive(Clone, Copy)]
pub(crate) struct Openings<'a> {
    /// The operators that are left.
    ops: Operators<'a>,
    /// How many values stand beside the one that begins with the operand.
    beside: usize,
    pub ghost few: { beside + length (operators_left ops) < 2 ^ 32 },
}

impl<'a> Openings<'a> {
    ghost use Rattle.condition_text.specs.code.OpeningsLeft.{openings_left};

    /// What operators put before an operand, by those behind the first of its own.
    pub(crate) fn of(rest: Operators<'a>) -> Openings<'a>
        ensures { openings_left result ≡ openings 0 (operators_left rest.entry) }
    {
        Openings {
            ops: rest,
            beside: 0,
        }
    }

    // What the operator puts before it that was just passed.
    fn opening(&self, word: Option<Unary>) -> Opening
        ensures { opening_text result ≡ open_before (operators_left self.now.ops) ++ unary_text word }
    {
        Opening {
            enclosed: !is_last(self.ops),
            word,
        }
    }

    // Goes past the next.
    fn next(&mut self) -> Opening
        requires { 0 < length (openings_left self.old) }
        ensures { openings_left self.old ≡ opening_text result ∷ openings_left self.new }
    {
        while let Some(op) = self.ops.next() {
            match op {
                ExprOp::Leaf(_) => self.beside += 1,
                ExprOp::RuleRef(_) => self.beside += 1,
                ExprOp::Unary(op) => {
                    if self.beside == 0 {
                        return self.opening(Some(op.operator));
                    }
                }
                ExprOp::Binary(_) => {
                    self.beside -= 1;
                    if self.beside == 0 {
                        return self.opening(None);
                    }
                }
            }
        }
        unreachable!()
    }

    // What is left behind so many.
    fn behind(self, count: usize) -> Openings<'a>
        requires { count ≤ length (openings_left self) }
        ensures { openings_left result ≡ drop count (openings_left self.entry) }
    {
        let mut left = self;
        for _ in 0..count {
            left.next();
        }
        left
    }

    /// Writes the first ones, the last of them first. Those of the second half are looked up anew in place of being kept, since
    /// an expression may have as many operators as its package has room for.
    pub(crate) fn put_first<W: Write>(self, count: usize, out: &mut Watched<W>)
        requires { count ≤ length (openings_left self) }
        ensures { Puts W.contents out.old out.new (from_last (take count (openings_left self.entry))) }
    {
        if count < 2 {
            if count == 1 {
                let mut left = self;
                left.next().put(out);
            }
            return;
        }
        let half = count / 2;
        self.behind(half).put_first(count - half, out);
        self.put_first(half, out);
    }
}

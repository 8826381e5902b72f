//! Values of expressions and of questions.

/// The value of an expression, or what a question answers (UEFI 2.8, 33.2.5.7 Expressions).
#[derive(Clone, Copy)]
pub enum Value<'v> {
    /// No value: the question has no answer, or the operands do not suit the operator.
    Undefined,
    /// True or false.
    Boolean(bool),
    /// A number of 64 bits, without a sign.
    Number(u64),
    /// Units of two bytes each, the lower byte first.
    Text(&'v [u8]),
    /// Bytes.
    Buffer(&'v [u8]),
}

/// What an operator makes of values.
#[derive(Clone, Copy, PartialEq, Eq)]
pub(crate) enum Outcome {
    Undefined,
    Boolean(bool),
    Number(u64),
}

impl Outcome {
    ghost use Rattle.std.specs.Prelude.{◌≡◌};
    ghost use Rattle.ifr_expr.specs.code.Views.{value_of, outcome_value};

    // What was made, as a value.
    pub(crate) fn value<'v>(self) -> Value<'v>
        ensures { value_of result ≡ outcome_value self }
    {
        match self {
            Outcome::Undefined => Value::Undefined,
            Outcome::Boolean(b) => Value::Boolean(b),
            Outcome::Number(n) => Value::Number(n),
        }
    }
}

/// A value that waits for its operator.
#[derive(Clone, Copy)]
pub(crate) enum Operand {
    Made(Outcome),
    /// What the question of an id answers.
    Answer(u16),
}

/// What questions answer.
pub trait Answers<'v> {
    ghost use Rattle.std.specs.Prelude.{◌≡◌, ℕ};
    ghost use Rattle.ifr_expr.specs.Values as spec;
    ghost use Rattle.ifr_expr.specs.code.Views.{value_of};

    /// The answer to each question id.
    ghost answers: { Self → ℕ → spec.Value };

    /// What the question of an id answers, `Undefined` where there is none with a field.
    fn answer(&self, question: u16) -> Value<'v>
        ensures { value_of result ≡ answers self.now question };

    /// What the question of an id answers where a number is wanted: a Boolean counts as 0 or 1, and a text and a buffer are
    /// none.
    fn number(&self, question: u16) -> Option<u64>
        ensures { result ≡ spec.as_number (answers self.now question) };
}

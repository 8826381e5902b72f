//! What an operator puts before the operand with which its own first operand begins.

ghost use Rattle.std.specs.Prelude.{◌≡◌};
ghost use Rattle.hii_bytes.specs.Watching.{Puts};
ghost use Rattle.ifr_expr.specs.code.Expressions.{operators_left};
ghost use Rattle.condition_text.specs.code.Openings.{is_none_left, opening_parenthesis, opening_text, unary_text};

use crate::words::unary_word;
use hii_bytes::Watched;
use ifr_expr::Operators;
use ifr_opcodes::Unary;
use std::io::Write;

/// What an operator puts before its first operand.
#[derive(Clone, Copy)]
pub(crate) struct Opening {
    /// Whether the operator stands in parentheses.
    pub enclosed: bool,
    /// The operator, if it takes one operand.
    pub word: Option<Unary>,
}

/// Whether an operator is the last of its expression, by those that are left behind it.
pub(crate) fn is_last(rest: Operators<'_>) -> bool
    ensures { result ≡ is_none_left (operators_left rest.entry) }
{
    let mut rest = rest;
    rest.next().is_none()
}

// Writes a parenthesis that opens, if one is wanted.
fn put_parenthesis<W: Write>(wanted: bool, out: &mut Watched<W>)
    ensures { Puts W.contents out.old out.new (opening_parenthesis wanted) }
{
    if wanted {
        out.put(b"(");
    }
}

// Writes the word of an operator, if there is one.
fn put_unary<W: Write>(word: Option<Unary>, out: &mut Watched<W>)
    ensures { Puts W.contents out.old out.new (unary_text word) }
{
    if let Some(operator) = word {
        out.put(unary_word(operator));
    }
}

impl Opening {
    /// Writes it.
    pub(crate) fn put<W: Write>(self, out: &mut Watched<W>)
        ensures { Puts W.contents out.old out.new (opening_text self) }
    {
        put_parenthesis(self.enclosed, out);
        put_unary(self.word, out);
    }
}

//! Bounds that nothing can meet.

ghost use Rattle.std.specs.Prelude.{◌≡◌, ◌++◌, IfOk, OnOk};
ghost use Rattle.ifr_opcodes.specs.code.Ops.{bytes_of};
ghost use Rattle.ifr_nodes.specs.Nodes.{nodes_of};
ghost use Rattle.ifr_scopes.specs.code.Lists.{statement_node};
ghost use Rattle.check_audit.specs.Warnings.{bounds_warnings, crossed_of, crossed_spans, numeric_span, span_of};

use crate::warning::{Oddity, Span, Warning};
use hii_questions::shown;
use ifr_opcodes::{Display, NumericOp};
use ifr_scopes::{Forms, Statement, StatementKind};
use std::alloc::{AllocError, Global};

// The bounds of a number, as they are shown.
fn numeric_span(op: NumericOp<'_>) -> Span
    ensures { result ≡ numeric_span (bytes_of op.entry.op) }
{
    let signed = matches!(op.display(), Display::Signed);
    let width = op.width();
    Span {
        minimum: shown(signed, width, op.minimum()),
        maximum: shown(signed, width, op.maximum()),
    }
}

// The bounds of a question, if it has some.
fn span_of(statement: Statement<'_>) -> Option<Span>
    ensures { result ≡ span_of (statement_node statement.entry) }
{
    match statement.kind() {
        StatementKind::Numeric(op) => Some(numeric_span(op)),
        StatementKind::String(op) => Some(Span {
            minimum: i128::from(op.minimum()),
            maximum: i128::from(op.maximum()),
        }),
        StatementKind::Password(op) => Some(Span {
            minimum: i128::from(op.minimum()),
            maximum: i128::from(op.maximum()),
        }),
        _ => None,
    }
}

// The bounds of a statement, if nothing can meet them.
fn crossed_of(statement: Statement<'_>) -> Option<Span>
    ensures { result ≡ crossed_of (statement_node statement.entry) }
{
    let span = span_of(statement)?;
    if span.maximum < span.minimum {
        return Some(span);
    }
    None
}

/// Adds the questions whose bounds nothing can meet, each with its number among them, and tells these bounds.
pub(crate) fn add_bounds(
    alloc: Global,
    forms: &Forms<'_>,
    warnings: &mut Vec<Warning>,
) -> Result<Vec<Span>, AllocError>
    ensures spans { IfOk result (λ spans. spans.items ≡ crossed_spans (nodes_of forms.now)) }
    ensures added { OnOk result (warnings.new.items
        ≡ warnings.old.items ++ bounds_warnings (nodes_of forms.now)) }
{
    let _accepted = forms.bytes();
    let mut spans = Vec::new(alloc);
    let mut statements = forms.statements();
    while let Some(statement) = statements.next() {
        if let Some(span) = crossed_of(statement) {
            warnings.push(Warning {
                place: statement.place(),
                oddity: Oddity::Bounds(spans.len() as u32),
            })?;
            spans.push(span)?;
        }
    }
    Ok(spans)
}

//! What questions take.

ghost use Rattle.hii_bytes.specs.Watching.{Puts};
ghost use Rattle.ifr_opcodes.specs.code.Ops.{bytes_of as op_bytes};
ghost use Rattle.ifr_scopes.specs.code.Lists.{statement_node};
ghost use Rattle.question_rows.specs.Limits.{elements_part, limits_part, range_part, span_part};

use guard_policy::Conditions;
use hii_bytes::Watched;
use ifr_opcodes::{NumericOp, OrderedListOp};
use ifr_scopes::{Statement, StatementKind};
use question_audit::{put_shown_number, put_step};
use std::io::Write;

// Writes which numbers a NUMERIC takes.
fn put_range<C: Conditions, W: Write>(op: NumericOp<'_>, out: &mut Watched<W>)
    ensures { Puts W.contents out.old out.new (range_part (op_bytes op.entry.op)) }
{
    out.put(b"<p class=\"small dim\">");
    put_shown_number::<C, W>(op, op.minimum(), out);
    out.put(b" to ");
    put_shown_number::<C, W>(op, op.maximum(), out);
    put_step::<C, W>(op, out);
    out.put(b"</p>");
}

// Writes how many there may be of something.
fn put_span<W: Write>(least: u64, most: u64, what: &[u8], out: &mut Watched<W>)
    ensures { Puts W.contents out.old out.new (span_part least most what.now) }
{
    out.put(b"<p class=\"small dim\">");
    out.put_decimal(least);
    out.put(b" to ");
    out.put_decimal(most);
    out.put(what);
    out.put(b"</p>");
}

// Writes how many elements an ORDERED_LIST may have.
fn put_elements<W: Write>(op: OrderedListOp<'_>, out: &mut Watched<W>)
    ensures { Puts W.contents out.old out.new (elements_part (op_bytes op.entry.op)) }
{
    let least = u64::from(op.has_no_empty_set());
    let most = u64::from(op.max_containers());
    if op.is_unique_set() {
        put_span(least, most, b" elements, each once", out);
    } else {
        put_span(least, most, b" elements", out);
    }
}

/// Writes which values a question takes.
pub(crate) fn put_limits<C: Conditions, W: Write>(statement: Statement<'_>, out: &mut Watched<W>)
    ensures { Puts W.contents out.old out.new (limits_part (statement_node statement.entry).op) }
{
    match statement.kind() {
        StatementKind::Numeric(op) => put_range::<C, W>(op, out),
        StatementKind::String(op) => {
            put_span(
                u64::from(op.minimum()),
                u64::from(op.maximum()),
                b" characters",
                out,
            )
        }
        StatementKind::Password(op) => {
            put_span(
                u64::from(op.minimum()),
                u64::from(op.maximum()),
                b" characters",
                out,
            )
        }
        StatementKind::OrderedList(op) => put_elements(op, out),
        _ => {}
    }
}

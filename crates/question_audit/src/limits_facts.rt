//! What the opcode of a question says of it as a question.

ghost use Rattle.std.specs.Prelude.{◌≡◌, Some};
ghost use Rattle.hii_bytes.specs.Watching.{Puts};
ghost use Rattle.ifr_opcodes.specs.Fields.{display, numeric_step, ref_target};
ghost use Rattle.ifr_opcodes.specs.code.Ops.{bytes_of as op_bytes};
ghost use Rattle.ifr_nodes.specs.ReferenceFaults.{form_with};
ghost use Rattle.ifr_scopes.specs.code.Lists.{statement_node};
ghost use Rattle.hii_questions.specs.code.Views.{question_node, question_view};
ghost use Rattle.guard_policy.specs.Policy.{is_never_changed};
ghost use Rattle.question_audit.specs.code.Pages.{audited};
ghost use Rattle.question_audit.specs.ConditionFacts.{fact};
ghost use Rattle.question_audit.specs.Limits.{flags_fact, form_behind, leads_fact, limits_fact, list_length, numeric_range, outside_fact, outside_text, set_fact, shown_number, shown_step, span, step_text, unstored_text};

use crate::facts::put_column;
use audit_text::{Case, put_guid, put_safe_shown};
use form_page::{Page, RowValue, numeric_value, put_row_value};
use guard_policy::Conditions;
use hii_bytes::{Guid, Watched};
use hii_questions::Question;
use ifr_expr::Value;
use ifr_opcodes::{Display, NumericOp, OrderedListOp, QuestionOp, RefOp};
use ifr_scopes::{Statement, StatementKind};
use std::io::Write;

// The flags of questions (UEFI 2.8, 33.3.8.2.2, EFI_IFR_FLAG_READ_ONLY and its kin).
const READ_ONLY: u8 = 0x01;

const CALLBACK: u8 = 0x04;

const RESET_REQUIRED: u8 = 0x10;

// What names no form set.
const NO_FORM_SET: [u8; 16] = [0; 16];

// Writes a line: a word in its column, and a text behind it.
fn put_line<W: Write>(word: &[u8], text: &[u8], out: &mut Watched<W>)
    ensures { Puts W.contents out.old out.new (fact word.now text.now) }
{
    put_column(word, out);
    out.put(text);
    out.put(b"\n");
}

/// Writes the flags of a question, if it has some.
pub(crate) fn put_flags_fact<W: Write>(question: QuestionOp<'_>, out: &mut Watched<W>)
    ensures { Puts W.contents out.old out.new (flags_fact (op_bytes question.entry.op)) }
{
    let flags = question.flags();
    let set = (
        flags & READ_ONLY != 0,
        flags & CALLBACK != 0,
        flags & RESET_REQUIRED != 0,
    );
    match set {
        (false, false, false) => {}
        (true, false, false) => put_line(b"flags", b"readonly", out),
        (false, true, false) => put_line(b"flags", b"callback", out),
        (true, true, false) => put_line(b"flags", b"readonly, callback", out),
        (false, false, true) => put_line(b"flags", b"reset", out),
        (true, false, true) => put_line(b"flags", b"readonly, reset", out),
        (false, true, true) => put_line(b"flags", b"callback, reset", out),
        (true, true, true) => put_line(b"flags", b"readonly, callback, reset", out),
    }
}

/// Writes a number as a NUMERIC shows its values.
pub fn put_shown_number<C: Conditions, W: Write>(
    op: NumericOp<'_>,
    number: u64,
    out: &mut Watched<W>,
)
    ensures { Puts W.contents out.old out.new (shown_number (op_bytes op.entry.op) number) }
{
    let shown: RowValue<'_, '_, C> = numeric_value(op, Value::Number(number));
    put_row_value(shown, out);
}

/// Writes by how much a NUMERIC changes: a step has no sign.
pub fn put_shown_step<C: Conditions, W: Write>(op: NumericOp<'_>, out: &mut Watched<W>)
    ensures { Puts W.contents out.old out.new
        (shown_step (display (op_bytes op.entry.op)) (op_bytes op.entry.op)
        (numeric_step (op_bytes op.entry.op))) }
{
    let step = op.step();
    match op.display() {
        Display::Hexadecimal => put_shown_number::<C, W>(op, step, out),
        Display::Signed | Display::Unsigned => out.put_decimal(step),
    }
}

/// Writes by how much a NUMERIC changes, if it says so.
pub fn put_step<C: Conditions, W: Write>(op: NumericOp<'_>, out: &mut Watched<W>)
    ensures { Puts W.contents out.old out.new
        (step_text (op_bytes op.entry.op) (numeric_step (op_bytes op.entry.op))) }
{
    if op.step() == 0 {
        return;
    }
    out.put(b", step ");
    put_shown_step::<C, W>(op, out);
}

// Writes which numbers a NUMERIC takes.
fn put_range<C: Conditions, W: Write>(op: NumericOp<'_>, out: &mut Watched<W>)
    ensures { Puts W.contents out.old out.new (numeric_range (op_bytes op.entry.op)) }
{
    put_column(b"range", out);
    put_shown_number::<C, W>(op, op.minimum(), out);
    out.put(b" to ");
    put_shown_number::<C, W>(op, op.maximum(), out);
    put_step::<C, W>(op, out);
    out.put(b"\n");
}

// Writes how many there may be of something.
fn put_span<W: Write>(least: u64, most: u64, what: &[u8], out: &mut Watched<W>)
    ensures { Puts W.contents out.old out.new (span least most what.now) }
{
    put_column(b"length", out);
    out.put_decimal(least);
    out.put(b" to ");
    out.put_decimal(most);
    out.put(what);
    out.put(b"\n");
}

// Writes how many elements an ORDERED_LIST may have.
fn put_elements<W: Write>(op: OrderedListOp<'_>, out: &mut Watched<W>)
    ensures { Puts W.contents out.old out.new (list_length (op_bytes op.entry.op)) }
{
    let least = u64::from(op.has_no_empty_set());
    let most = u64::from(op.max_containers());
    if op.is_unique_set() {
        put_span(least, most, b" elements, each once", out);
    } else {
        put_span(least, most, b" elements", out);
    }
}

// Writes the form set that a reference names, if it names one.
fn put_form_set<W: Write>(guid: Guid<'_>, out: &mut Watched<W>)
    ensures { Puts W.contents out.old out.new (set_fact (Some guid.entry.bytes.now)) }
{
    if guid.bytes() == &NO_FORM_SET[..] {
        return;
    }
    put_column(b"leads", out);
    out.put(b"form set ");
    put_guid(out, guid, Case::Upper);
    out.put(b"\n");
}

// Writes the form of an id, if there is one.
fn put_form_behind<C: Conditions, W: Write>(page: Page<'_, '_, C>, id: u16, out: &mut Watched<W>)
    ensures { Puts W.contents out.old out.new
        (form_behind (audited page.entry) id (form_with (audited page.entry).world.nodes id)) }
{
    if let Some(form) = page.policy().forms().form(id) {
        out.put(b"form ");
        out.put_decimal(u64::from(id));
        out.put(b" ");
        put_safe_shown(page.text(form.op().title()).chars(), out);
    }
}

// Writes where a reference leads.
fn put_leads<C: Conditions, W: Write>(page: Page<'_, '_, C>, op: RefOp<'_>, out: &mut Watched<W>)
    ensures { Puts W.contents out.old out.new
        (leads_fact (audited page.entry) (op_bytes op.entry.op) (ref_target (op_bytes op.entry.op))) }
{
    if let Some(id) = op.target() {
        put_column(b"leads", out);
        put_form_behind(page, id, out);
        out.put(b"\n");
        return;
    }
    if let Some(guid) = op.form_set() {
        put_form_set(guid, out);
    }
}

/// Writes which values a question takes, or where a reference leads.
pub(crate) fn put_limits_fact<C: Conditions, W: Write>(
    page: Page<'_, '_, C>,
    statement: Statement<'_>,
    out: &mut Watched<W>,
)
    ensures { Puts W.contents out.old out.new
        (limits_fact (audited page.entry) (statement_node statement.entry)) }
{
    match statement.kind() {
        StatementKind::Checkbox(_) => put_line(b"range", b"0 to 1", out),
        StatementKind::Numeric(op) => put_range::<C, W>(op, out),
        StatementKind::String(op) => {
            put_span(
                u64::from(op.minimum()),
                u64::from(op.maximum()),
                b" characters",
                out,
            )
        }
        StatementKind::Password(op) => {
            put_span(
                u64::from(op.minimum()),
                u64::from(op.maximum()),
                b" characters",
                out,
            )
        }
        StatementKind::OrderedList(op) => put_elements(op, out),
        StatementKind::Ref(op) => put_leads(page, op, out),
        _ => {}
    }
}

// Writes why a question without a field has none, by its store.
fn put_unstored<W: Write>(store: u16, out: &mut Watched<W>)
    ensures { Puts W.contents out.old out.new (unstored_text store) }
{
    if store == 0 {
        out.put(b"store 0: its driver keeps the value");
        return;
    }
    out.put(b"store ");
    out.put_decimal(u64::from(store));
    out.put(b" is a store of names and values");
}

/// Writes why a question can never be changed here.
pub fn put_outside<W: Write>(question: Question<'_>, out: &mut Watched<W>)
    ensures { Puts W.contents out.old out.new (outside_text (question_node question.entry)) }
{
    match question.statement().kind() {
        StatementKind::Ref(_) => out.put(b"it leads to no form of this form set"),
        StatementKind::Date(_) => out.put(b"a DATE, whose value is not kept here"),
        StatementKind::Time(_) => out.put(b"a TIME, whose value is not kept here"),
        StatementKind::Action(_) => out.put(b"an ACTION has no value"),
        _ => put_unstored(question.op().store(), out),
    }
}

/// Whether a question can never be changed here.
pub fn is_never_changed(question: Question<'_>) -> bool
    ensures { result ≡ is_never_changed (question_view question.entry) }
{
    match question.statement().kind() {
        StatementKind::Ref(op) => op.target().is_none(),
        _ => question.field().is_none(),
    }
}

/// Writes why a question can never be changed here, if it cannot.
pub(crate) fn put_outside_fact<W: Write>(question: Question<'_>, out: &mut Watched<W>)
    ensures { Puts W.contents out.old out.new (outside_fact (question_view question.entry)) }
{
    if is_never_changed(question) {
        put_column(b"outside", out);
        put_outside(question, out);
        out.put(b"\n");
    }
}

//! What a question takes, where it leads, and why it has no value here.

ghost use Rattle.std.specs.Prelude.{◌≡◌, codes, option_map};
ghost use Rattle.hii_bytes.specs.Watching.{Puts};
ghost use Rattle.ifr_opcodes.specs.Fields.{numeric_step, ref_target};
ghost use Rattle.ifr_opcodes.specs.code.Ops.{bytes_of as op_bytes};
ghost use Rattle.ifr_scopes.specs.code.Lists.{statement_node};
ghost use Rattle.hii_questions.specs.code.Views.{question_view};
ghost use Rattle.question_audit.specs.Limits.{list_least, shown_number};
ghost use Rattle.audit_json.specs.Objects.{member, word_member};
ghost use Rattle.question_objects.specs.Limits.{count_members, flags_member, kind_members, leads_member, limit_members, list_members, numeric_members, outside_member, set_member, step_member};

use crate::members::put_where;
use audit_json::{put_guid_member, put_member, put_number};
use guard_policy::Conditions;
use hii_bytes::{Guid, Watched};
use hii_questions::Question;
use ifr_opcodes::{NumericOp, OrderedListOp, QuestionOp, RefOp};
use ifr_scopes::{Statement, StatementKind};
use question_audit::{is_never_changed, put_outside, put_shown_number, put_shown_step};
use std::io::Write;

// The flags of questions (UEFI 2.8, 33.3.8.2.2, EFI_IFR_FLAG_READ_ONLY and its kin).
const READ_ONLY: u8 = 0x01;

const CALLBACK: u8 = 0x04;

const RESET_REQUIRED: u8 = 0x10;

// What names no form set.
const NO_FORM_SET: [u8; 16] = [0; 16];

// Writes the flags of a question as an array that is given.
fn put_flag_words<W: Write>(words: &[u8], out: &mut Watched<W>)
    ensures { Puts W.contents out.old out.new (member (codes "flags") words.now) }
{
    put_member(b"flags", out);
    out.put(words);
}

// Writes the flags of a question, if it has some.
fn put_flags<W: Write>(question: QuestionOp<'_>, out: &mut Watched<W>)
    ensures { Puts W.contents out.old out.new (flags_member (op_bytes question.entry.op)) }
{
    let flags = question.flags();
    let set = (
        flags & READ_ONLY != 0,
        flags & CALLBACK != 0,
        flags & RESET_REQUIRED != 0,
    );
    match set {
        (false, false, false) => {}
        (true, false, false) => put_flag_words(b"[\"readonly\"]", out),
        (false, true, false) => put_flag_words(b"[\"callback\"]", out),
        (true, true, false) => put_flag_words(b"[\"readonly\",\"callback\"]", out),
        (false, false, true) => put_flag_words(b"[\"reset\"]", out),
        (true, false, true) => put_flag_words(b"[\"readonly\",\"reset\"]", out),
        (false, true, true) => put_flag_words(b"[\"callback\",\"reset\"]", out),
        (true, true, true) => put_flag_words(b"[\"readonly\",\"callback\",\"reset\"]", out),
    }
}

// Writes a member that is a number as a NUMERIC shows its values.
fn put_bound<C: Conditions, W: Write>(
    key: &[u8],
    op: NumericOp<'_>,
    number: u64,
    out: &mut Watched<W>,
)
    ensures { Puts W.contents out.old out.new
        (word_member key.now (shown_number (op_bytes op.entry.op) number)) }
{
    put_member(key, out);
    out.put(b"\"");
    put_shown_number::<C, W>(op, number, out);
    out.put(b"\"");
}

// Writes by how much a NUMERIC changes, if it says so.
fn put_step<C: Conditions, W: Write>(op: NumericOp<'_>, out: &mut Watched<W>)
    ensures { Puts W.contents out.old out.new
        (step_member (op_bytes op.entry.op) (numeric_step (op_bytes op.entry.op))) }
{
    if op.step() == 0 {
        return;
    }
    put_member(b"step", out);
    out.put(b"\"");
    put_shown_step::<C, W>(op, out);
    out.put(b"\"");
}

// Writes which numbers a NUMERIC takes.
fn put_numeric<C: Conditions, W: Write>(op: NumericOp<'_>, out: &mut Watched<W>)
    ensures { Puts W.contents out.old out.new (numeric_members (op_bytes op.entry.op)) }
{
    put_bound::<C, W>(b"minimum", op, op.minimum(), out);
    put_bound::<C, W>(b"maximum", op, op.maximum(), out);
    put_step::<C, W>(op, out);
}

// Writes how many characters or elements there may be.
fn put_counts<W: Write>(least: u64, most: u64, out: &mut Watched<W>)
    ensures { Puts W.contents out.old out.new (count_members least most) }
{
    put_number(b"least", least, out);
    put_number(b"most", most, out);
}

// How many elements an ORDERED_LIST has at least.
fn least_of(op: OrderedListOp<'_>) -> u64
    ensures { result ≡ list_least (op_bytes op.entry.op) }
{
    if op.has_no_empty_set() { 1 } else { 0 }
}

// Writes how many elements an ORDERED_LIST may have.
fn put_elements<W: Write>(op: OrderedListOp<'_>, out: &mut Watched<W>)
    ensures { Puts W.contents out.old out.new (list_members (op_bytes op.entry.op)) }
{
    put_counts(least_of(op), u64::from(op.max_containers()), out);
    put_where(op.is_unique_set(), b"unique", out);
}

// Writes the form set that a reference names, if it names one.
fn put_form_set<W: Write>(guid: Option<Guid<'_>>, out: &mut Watched<W>)
    ensures { Puts W.contents out.old out.new
        (set_member (option_map (λ guid. guid.bytes.now) guid.entry)) }
{
    if let Some(guid) = guid {
        if guid.bytes() == &NO_FORM_SET[..] {
            return;
        }
        put_guid_member(b"formset", guid, out);
    }
}

// Writes where a reference leads.
fn put_leads<W: Write>(op: RefOp<'_>, out: &mut Watched<W>)
    ensures { Puts W.contents out.old out.new
        (leads_member (op_bytes op.entry.op) (ref_target (op_bytes op.entry.op))) }
{
    match op.target() {
        Some(id) => put_number(b"leads", u64::from(id), out),
        None => put_form_set(op.form_set(), out),
    }
}

// Writes which values a question takes, or where a reference leads.
fn put_limits<C: Conditions, W: Write>(statement: Statement<'_>, out: &mut Watched<W>)
    ensures { Puts W.contents out.old out.new
        (limit_members (statement_node statement.entry).op) }
{
    match statement.kind() {
        StatementKind::Numeric(op) => put_numeric::<C, W>(op, out),
        StatementKind::String(op) => {
            put_counts(u64::from(op.minimum()), u64::from(op.maximum()), out)
        }
        StatementKind::Password(op) => {
            put_counts(u64::from(op.minimum()), u64::from(op.maximum()), out)
        }
        StatementKind::OrderedList(op) => put_elements(op, out),
        StatementKind::Ref(op) => put_leads(op, out),
        _ => {}
    }
}

// Writes why a question can never be changed here, if it cannot.
fn put_outside_member<W: Write>(question: Question<'_>, out: &mut Watched<W>)
    ensures { Puts W.contents out.old out.new (outside_member (question_view question.entry)) }
{
    if is_never_changed(question) {
        put_member(b"outside", out);
        out.put(b"\"");
        put_outside(question, out);
        out.put(b"\"");
    }
}

/// Writes the flags of a question, what it takes or where it leads, and why it has no value here.
pub(crate) fn put_kind<C: Conditions, W: Write>(question: Question<'_>, out: &mut Watched<W>)
    ensures { Puts W.contents out.old out.new (kind_members (question_view question.entry)) }
{
    put_flags(question.op(), out);
    put_limits::<C, W>(question.statement(), out);
    put_outside_member(question, out);
}

//! Why commands are denied that no condition forbids, and lines refused.

ghost use Rattle.std.specs.Prelude.{◌≡◌, option_map};
ghost use Rattle.std.specs.List.{find, flat_map};
ghost use Rattle.hii_bytes.specs.Watching.{Puts};
ghost use Rattle.ifr_opcodes.specs.code.Ops.{bytes_of as op_bytes};
ghost use Rattle.ifr_nodes.specs.Nodes.{nodes_of};
ghost use Rattle.ifr_scopes.specs.code.Lists.{statement_node};
ghost use Rattle.ifr_scopes.specs.code.Parts.{options_left};
ghost use Rattle.hii_questions.specs.code.Views.{question_node};
ghost use Rattle.guard_policy.specs.code.Views.{bytes_of};
ghost use Rattle.script_audit.specs.Because as spec;

use crate::sentences::put_bad_command;
use audit_json::Telling;
use audit_text::opcode_name;
use form_page::Page;
use guard_policy::{Conditions, Denial};
use hii_bytes::{Cause, Watched};
use hii_questions::{DenialKind, Question};
use ifr_opcodes::{NumericOp, OrderedListOp};
use ifr_scopes::{Forms, Statement, StatementKind};
use question_audit::{put_outside, put_shown_number, put_step};
use session_steps::Reply;
use std::io::Write;

// Writes which numbers a NUMERIC takes.
fn put_numbers<C: Conditions, W: Write>(op: NumericOp<'_>, out: &mut Watched<W>)
    ensures { Puts W.contents out.old out.new (spec.number_limits (op_bytes op.entry.op)) }
{
    out.put(b"range ");
    put_shown_number::<C, W>(op, op.minimum(), out);
    out.put(b" to ");
    put_shown_number::<C, W>(op, op.maximum(), out);
    put_step::<C, W>(op, out);
}

// Writes how many there may be of something.
fn put_lengths<W: Write>(least: u64, most: u64, what: &[u8], out: &mut Watched<W>)
    ensures { Puts W.contents out.old out.new (spec.length_limits least most what.now) }
{
    out.put(b"length ");
    out.put_decimal(least);
    out.put(b" to ");
    out.put_decimal(most);
    out.put(what);
}

// Writes how many elements an ORDERED_LIST may have.
fn put_elements<W: Write>(op: OrderedListOp<'_>, out: &mut Watched<W>)
    ensures { Puts W.contents out.old out.new (spec.element_limits (op_bytes op.entry.op)) }
{
    let least = u64::from(op.has_no_empty_set());
    let most = u64::from(op.max_containers());
    if op.is_unique_set() {
        put_lengths(least, most, b" elements, each once", out);
    } else {
        put_lengths(least, most, b" elements", out);
    }
}

// Writes which values a question takes.
fn put_limits<C: Conditions, W: Write>(statement: Statement<'_>, out: &mut Watched<W>)
    ensures { Puts W.contents out.old out.new (spec.limits_words (statement_node statement.entry)) }
{
    match statement.kind() {
        StatementKind::Checkbox(_) => out.put(b"range 0 to 1"),
        StatementKind::Numeric(op) => put_numbers::<C, W>(op, out),
        StatementKind::String(op) => {
            put_lengths(
                u64::from(op.minimum()),
                u64::from(op.maximum()),
                b" characters",
                out,
            )
        }
        StatementKind::Password(op) => {
            put_lengths(
                u64::from(op.minimum()),
                u64::from(op.maximum()),
                b" characters",
                out,
            )
        }
        StatementKind::OrderedList(op) => put_elements(op, out),
        _ => {}
    }
}

// Writes the values of the options of a question.
fn put_options<W: Write>(statement: Statement<'_>, out: &mut Watched<W>)
    ensures { Puts W.contents out.old out.new (spec.option_words (statement_node statement.entry)) }
{
    out.put(b"its options are");
    let mut options = statement.options();
    while let Some(option) = options.next() {
        out.put(b" ");
        out.put_decimal(option.op().value());
    }
}

// The command that a question takes.
fn taken_word(statement: Statement<'_>) -> &'static [u8]
    ensures { result.now ≡ spec.taken_word (statement_node statement.entry) }
{
    match statement.kind() {
        StatementKind::Checkbox(_) => b"set",
        StatementKind::Numeric(_) => b"set",
        StatementKind::OneOf(_) => b"set",
        StatementKind::String(_) => b"text",
        StatementKind::Password(_) => b"text",
        StatementKind::OrderedList(_) => b"order",
        StatementKind::Ref(_) => b"go",
        _ => b"no value here",
    }
}

// Writes which command a question takes.
fn put_kind<W: Write>(statement: Statement<'_>, out: &mut Watched<W>)
    ensures { Puts W.contents out.old out.new (spec.kind_words (statement_node statement.entry)) }
{
    out.put(b"a ");
    out.put(opcode_name(statement.op().op.code));
    out.put(b" takes ");
    out.put(taken_word(statement));
}

// Writes what a statement is.
fn put_name<W: Write>(statement: Statement<'_>, out: &mut Watched<W>)
    ensures { Puts W.contents out.old out.new (spec.name_words (statement_node statement.entry)) }
{
    out.put(b"it is a ");
    out.put(opcode_name(statement.op().op.code));
}

// The statement at a place, if there is one.
fn statement_at<'a>(forms: &Forms<'a>, place: u32) -> Option<Statement<'a>>
    ensures { option_map statement_node result ≡ spec.statement_at (nodes_of forms.now) place }
{
    let mut statements = forms.statements();
    while let Some(statement) = statements.next() {
        if statement.place() == place {
            return Some(statement);
        }
    }
    None
}

// Writes why a command is denied, where its question says it.
fn put_question_words<C: Conditions, W: Write>(
    kind: DenialKind,
    question: Question<'_>,
    out: &mut Watched<W>,
)
    ensures { Puts W.contents out.old out.new (spec.question_words kind (question_node question.entry)) }
{
    let statement = question.statement();
    match kind {
        DenialKind::Outside => put_outside(question, out),
        DenialKind::Kind => put_kind(statement, out),
        DenialKind::Range => put_limits::<C, W>(statement, out),
        DenialKind::Length => put_limits::<C, W>(statement, out),
        DenialKind::NoOption => put_options(statement, out),
        DenialKind::NotRef => put_name(statement, out),
        _ => {}
    }
}

// Writes the same of the question at the place of a denial.
fn put_of_question<'a, C: Conditions, W: Write>(
    page: Page<'a, '_, C>,
    denial: Denial,
    out: &mut Watched<W>,
)
    ensures { Puts W.contents out.old out.new
        (spec.of_question (spec.question_words denial.kind)
        (spec.question_at (nodes_of (bytes_of page.entry.policy)) denial.place)) }
{
    if let Some(question) = page.questions().at(denial.place) {
        put_question_words::<C, W>(denial.kind, question, out);
    }
}

// Writes why a command is denied, where its statement says it.
fn put_statement_words<W: Write>(kind: DenialKind, statement: Statement<'_>, out: &mut Watched<W>)
    ensures { Puts W.contents out.old out.new (spec.statement_words kind (statement_node statement.entry)) }
{
    if let DenialKind::NotButton = kind {
        put_name(statement, out);
    }
}

// Writes the same of the statement at the place of a denial.
fn put_of_statement<W: Write>(forms: &Forms<'_>, denial: Denial, out: &mut Watched<W>)
    ensures { Puts W.contents out.old out.new
        (spec.of_statement (spec.statement_words denial.kind)
        (spec.statement_at (nodes_of forms.now) denial.place)) }
{
    if let Some(statement) = statement_at(forms, denial.place) {
        put_statement_words(denial.kind, statement, out);
    }
}

// Why a command is denied that no opcode forbids.
fn fixed_words(kind: DenialKind) -> &'static [u8]
    ensures { result.now ≡ spec.fixed_words kind }
{
    match kind {
        DenialKind::Locked => b"a LOCKED locks it",
        DenialKind::ReadOnly => b"its flag READ_ONLY is set",
        DenialKind::Repeat => b"each option once",
        DenialKind::EmptySet => b"one element at least",
        DenialKind::BadText => b"no UTF-8, a NUL or a character above U+FFFF",
        DenialKind::NoQuestion => b"no question has this id",
        DenialKind::NoRow => b"the page has no such row",
        DenialKind::NoBack => b"no form was left by go",
        DenialKind::DeepHistory => b"32 forms were left by go",
        DenialKind::NoStore => b"no store of the list has this GUID, NAME and PATH",
        DenialKind::NoField => b"no question has exactly this block",
        DenialKind::Password => b"the block has bytes of a password",
        _ => b"",
    }
}

// Writes why a command is denied that no condition forbids.
fn put_denial<'a, C: Conditions, W: Write>(
    page: Page<'a, '_, C>,
    denial: Denial,
    out: &mut Watched<W>,
)
    ensures { Puts W.contents out.old out.new
        (spec.denial_words (nodes_of (bytes_of page.entry.policy)) denial) }
{
    put_of_question(page, denial, out);
    put_of_statement(page.policy().forms(), denial, out);
    out.put(fixed_words(denial.kind));
}

// Writes why a line is refused.
fn put_cause<W: Write>(telling: Telling, line: &[u8], cause: Cause, out: &mut Watched<W>)
    ensures { Puts W.contents out.old out.new (spec.cause_words telling line.now cause) }
{
    if cause.number() == Cause::BadCommand.number() {
        put_bad_command(telling, line, out);
    } else if cause.number() == Cause::LineTooLong.number() {
        out.put(b"a line has at most 4096 bytes");
    } else {
        out.put(b"the configuration text has a fault");
    }
}

/// Writes why a line is not answered with OK that no condition forbids.
pub(crate) fn put_reason<'a, C: Conditions, W: Write>(
    telling: Telling,
    page: Page<'a, '_, C>,
    line: &[u8],
    reply: Reply,
    out: &mut Watched<W>,
)
    ensures { Puts W.contents out.old out.new
        (spec.reason_words telling (nodes_of (bytes_of page.entry.policy)) line.now reply) }
{
    match reply {
        Reply::Accepted => {}
        Reply::Denied(denial) => put_denial(page, denial, out),
        Reply::Refused(cause) => put_cause(telling, line, cause, out),
    }
}

//! The rows of statements.

ghost use Rattle.std.specs.Prelude.{◌≡◌, if◌then◌else◌, [], Some, None, is_err, is_none, is_some, option_map};
ghost use Rattle.hii_bytes.specs.Watching.{pen_of};
ghost use Rattle.ifr_opcodes.specs.code.Ops.{bytes_of as op_bytes};
ghost use Rattle.ifr_nodes.specs.code.Checked.{IsNodeOf};
ghost use Rattle.ifr_scopes.specs.code.Lists.{statement_node, kind_op};
ghost use Rattle.ifr_nodes.specs.Nodes.{nodes_of, is_question};
ghost use Rattle.hii_questions.specs.Fields.{asked};
ghost use Rattle.hii_questions.specs.code.Views.{question_view};
ghost use Rattle.guard_policy.specs.Policy.{fixed, hidden};
ghost use Rattle.guard_policy.specs.code.Effects.{AreEffectsBy};
ghost use Rattle.guard_policy.specs.code.Views.{bytes_of};
ghost use Rattle.form_page.specs.code.PageViews.{texts_of, world_of};
ghost use Rattle.form_page.specs.Pages as pages;
ghost use Rattle.form_page.specs.code.Lines.{Adds};
ghost use Rattle.form_page.specs.code.Views.{row_seen};

use crate::decisions::standing;
use crate::line::Line;
use crate::page::Page;
use crate::row::{Row, put_front};
use crate::statement_value::statement_value;
use crate::value_bytes::put_value;
use guard_policy::{Conditions, Effects, SeenStatement, Standing};
use hii_bytes::Watched;
use ifr_scopes::{Statement, StatementKind};
use std::io::Write;

// The id of the question that a statement is.
fn id_of(statement: Statement<'_>) -> Option<u16>
    ensures { result ≡ pages.id_of (statement_node statement.entry) }
{
    let question = statement.question()?;
    Some(question.id())
}

// The mark of a statement of a kind.
fn mark_of(kind: StatementKind<'_>, is_fixed: bool) -> u8
    ensures { result ≡ pages.mark_of (op_bytes (kind_op kind.entry)) is_fixed }
{
    match kind {
        StatementKind::Subtitle(_) => b' ',
        StatementKind::Text(_) => b' ',
        _ if is_fixed => b'!',
        _ => b'*',
    }
}

// The row of a statement that is seen.
fn seen_row<'a, 's, C: Conditions>(
    page: Page<'a, 's, C>,
    number: u32,
    statement: Statement<'a>,
    seen: SeenStatement<'a>,
) -> Row<'a, 's, C>
    requires node { IsNodeOf (bytes_of page.policy) (statement_node statement) }
    requires fixed { is_err seen.changeable
        ≡ is_some (fixed (world_of page) (statement_node statement)) }
    requires asked { option_map question_view seen.question
        ≡ (if is_question (statement_node statement)
        then Some (asked (nodes_of (bytes_of page.policy)) (statement_node statement)) else None) }
    ensures { row_seen result ≡ pages.row_of (texts_of page.entry)
        (world_of page.entry) page.entry.stores.now number (statement_node statement.entry) }
{
    Row {
        number,
        mark: mark_of(statement.kind(), seen.changeable.is_err()),
        question: id_of(statement),
        prompt: page.languages.text(page.choice, statement.op().prompt()),
        value: statement_value(page, statement, seen.question),
    }
}

/// The row of a statement on a page, where it is seen, with the denials of the guards that were asked last.
pub(crate) fn row_of<'a, 's, C: Conditions>(
    page: Page<'a, 's, C>,
    number: u32,
    statement: Statement<'a>,
    last: &mut Effects,
) -> Option<Row<'a, 's, C>>
    requires node { IsNodeOf (bytes_of page.policy) (statement_node statement) }
    requires last { AreEffectsBy page.policy (C.holding page.conditions.now) last.old }
    ensures row { option_map row_seen result
        ≡ (if is_none (hidden (world_of page.entry) (statement_node statement.entry))
        then Some (pages.row_of (texts_of page.entry) (world_of page.entry)
        page.entry.stores.now number (statement_node statement.entry)) else None) }
    ensures last { AreEffectsBy page.entry.policy (C.holding page.entry.conditions.now) last.new }
{
    match standing(page, statement, last) {
        Standing::Hidden(_) => None,
        Standing::Seen(seen) => Some(seen_row(page, number, statement, seen)),
    }
}

// Adds the row of a statement that is seen.
fn put_seen_row<'a, C: Conditions, W: Write>(
    page: Page<'a, '_, C>,
    number: u32,
    statement: Statement<'a>,
    seen: SeenStatement<'a>,
    line: &mut Line,
    out: &mut Watched<W>,
)
    requires node { IsNodeOf (bytes_of page.policy) (statement_node statement) }
    requires fixed { is_err seen.changeable
        ≡ is_some (fixed (world_of page) (statement_node statement)) }
    requires asked { option_map question_view seen.question
        ≡ (if is_question (statement_node statement)
        then Some (asked (nodes_of (bytes_of page.policy)) (statement_node statement)) else None) }
    ensures { Adds (pen_of W.contents out.old) line.old (pen_of W.contents out.new) line.new
        (pages.row_text (pages.row_of (texts_of page.entry) (world_of page.entry)
        page.entry.stores.now number (statement_node statement.entry))) }
{
    let mark = mark_of(statement.kind(), seen.changeable.is_err());
    let prompt = page.languages.text(page.choice, statement.op().prompt());
    put_front(number, mark, id_of(statement), prompt, line, out);
    line.put(b" [", out);
    put_value(&statement_value(page, statement, seen.question), line, out);
    line.put(b"]\n", out);
}

/// Adds the row of a statement on a page, where it is seen, with the denials of the guards that were asked last, and answers
/// whether it is.
pub(crate) fn put_row_of<'a, C: Conditions, W: Write>(
    page: Page<'a, '_, C>,
    number: u32,
    statement: Statement<'a>,
    last: &mut Effects,
    line: &mut Line,
    out: &mut Watched<W>,
) -> bool
    requires node { IsNodeOf (bytes_of page.policy) (statement_node statement) }
    requires last { AreEffectsBy page.policy (C.holding page.conditions.now) last.old }
    ensures seen { result
        ≡ is_none (hidden (world_of page.entry) (statement_node statement.entry)) }
    ensures row { Adds (pen_of W.contents out.old) line.old (pen_of W.contents out.new) line.new
        (if result then pages.row_text (pages.row_of (texts_of page.entry) (world_of page.entry)
        page.entry.stores.now number (statement_node statement.entry)) else []) }
    ensures last { AreEffectsBy page.entry.policy (C.holding page.entry.conditions.now) last.new }
{
    match standing(page, statement, last) {
        Standing::Hidden(_) => false,
        Standing::Seen(seen) => {
            put_seen_row(page, number, statement, seen, line, out);
            true
        }
    }
}

//! What the opcode of a question says.

ghost use Rattle.std.specs.Prelude.{◌≡◌, ◌+◌, ◌<◌, ◌^◌, IfSome, option_map};
ghost use Rattle.hii_bytes.specs.Watching.{Puts};
ghost use Rattle.hii_bytes.specs.code.NumberSets.{has_number};
ghost use Rattle.ifr_nodes.specs.Nodes.{nodes_of};
ghost use Rattle.ifr_nodes.specs.code.Checked.{IsNodeOf};
ghost use Rattle.ifr_scopes.specs.code.Lists.{form_node, statement_node};
ghost use Rattle.hii_languages.specs.code.Views.{text_of};
ghost use Rattle.hii_questions.specs.code.Ranges.{range_in};
ghost use Rattle.hii_questions.specs.code.Views.{question_node, question_view};
ghost use Rattle.guard_policy.specs.code.Views.{bytes_of};
ghost use Rattle.form_page.specs.code.PageViews.{world_of};
ghost use Rattle.question_audit.specs.QuestionLines.{store_with};
ghost use Rattle.question_audit.specs.code.Closings.{TellsWays};
ghost use Rattle.question_audit.specs.code.Pages.{audited};
ghost use Rattle.question_audit.specs.QuestionFacts.{field_fact, form_fact, form_of, guid_behind, has_within, help_fact, opcode_fact, opcode_facts, prompt_line};

use crate::facts::{put_column, put_id};
use crate::fields::put_field_text;
use crate::origin::Origin;
use crate::questions::put_form;
use crate::store_names::StoreNames;
use crate::ways::Ways;
use audit_text::{Case, opcode_name, put_guid, put_hexadecimal, put_safe_shown};
use form_page::Page;
use guard_policy::{Conditions, Policy};
use hii_bytes::Watched;
use hii_languages::Shown;
use hii_questions::{FieldRange, Question};
use ifr_scopes::{Form, Forms, Statement};
use std::io::Write;

// Writes the first line: the id of a question and its prompt.
fn put_prompt_line<'a, C: Conditions, W: Write>(
    page: Page<'a, '_, C>,
    question: Question<'a>,
    out: &mut Watched<W>,
)
    ensures { Puts W.contents out.old out.new
        (prompt_line (audited page.entry) (question_node question.entry)) }
{
    out.put(b"QUESTION ");
    put_id(question.id(), out);
    out.put(b" ");
    put_safe_shown(page.text(question.statement().op().prompt()).chars(), out);
    out.put(b"\n");
}

// Writes a help text, if there is one.
fn put_help<W: Write>(help: Shown<'_>, out: &mut Watched<W>)
    ensures { Puts W.contents out.old out.new (help_fact (text_of help.entry)) }
{
    if help.chars().next().is_some() {
        put_column(b"help", out);
        put_safe_shown(help.chars(), out);
        out.put(b"\n");
    }
}

// Whether a statement stands in the scope of a form.
fn has_within<'a>(forms: &Forms<'a>, form: Form<'a>, statement: Statement<'a>) -> bool
    requires { IsNodeOf forms.now (form_node form) }
    ensures { result ≡ has_within (statement_node statement.entry) (form_node form.entry) }
{
    let mut statements = forms.statements_of(form);
    while let Some(other) = statements.next() {
        if other.place() == statement.place() {
            return true;
        }
    }
    false
}

/// The form in whose scope a statement stands.
pub fn form_of<'a>(policy: Policy<'a, '_>, statement: Statement<'a>) -> Option<Form<'a>>
    ensures node { IfSome result (λ form. IsNodeOf (bytes_of policy.entry) (form_node form)) }
    ensures form { option_map form_node result
        ≡ form_of (nodes_of (bytes_of policy.entry)) (statement_node statement.entry) }
{
    let forms = policy.forms();
    let mut all = forms.forms();
    while let Some(form) = all.next() {
        if has_within(forms, form, statement) {
            return Some(form);
        }
    }
    None
}

// Writes the form of a statement with its reach, if it stands in one.
fn put_form_fact<'a, C: Conditions, W: Write>(
    page: Page<'a, '_, C>,
    ways: &Ways,
    statement: Statement<'a>,
    out: &mut Watched<W>,
)
    requires { TellsWays (world_of page) ways.now }
    ensures { Puts W.contents out.old out.new
        (form_fact (audited page.entry) (has_number ways.now.reached)
        (form_of (nodes_of (bytes_of page.entry.policy)) (statement_node statement.entry))) }
{
    if let Some(form) = form_of(page.policy(), statement) {
        put_column(b"form", out);
        put_form(page, ways, form, out);
        out.put(b"\n");
    }
}

// Writes the name of a question's opcode and its places, in its forms package and in the file.
fn put_opcode_fact<W: Write>(origin: Origin, question: Question<'_>, out: &mut Watched<W>)
    requires { origin.place + (question_node question).place < 2 ^ 64 }
    ensures { Puts W.contents out.old out.new
        (opcode_fact origin (question_node question.entry)) }
{
    let place = u64::from(question.place());
    put_column(b"opcode", out);
    out.put(opcode_name(question.op().op.code));
    out.put(b" at ");
    out.put_place(place);
    out.put(b", byte ");
    put_hexadecimal(out, origin.place + place);
    out.put(origin.holder.text());
    out.put(b"\n");
}

// Writes the GUID of the store of an id behind a space, if there is such a store.
fn put_store_guid<W: Write>(names: &StoreNames<'_>, id: u16, out: &mut Watched<W>)
    ensures { Puts W.contents out.old out.new (guid_behind (store_with (nodes_of names.now) id)) }
{
    if let Some(store) = names.find(id) {
        out.put(b" ");
        put_guid(out, store.guid(), Case::Upper);
    }
}

// Writes where the field of a question lies, if it has one, and in which store.
fn put_field_fact<W: Write>(names: &StoreNames<'_>, field: Option<FieldRange>, out: &mut Watched<W>)
    ensures { Puts W.contents out.old out.new
        (field_fact (nodes_of names.now) (option_map range_in field)) }
{
    if let Some(field) = field {
        put_column(b"field", out);
        put_field_text(names, field, out);
        out.put(b", varstore ");
        out.put_decimal(u64::from(field.store));
        put_store_guid(names, field.store, out);
        out.put(b"\n");
    }
}

/// Writes what the opcode of a question says, with the place of its forms package in the file.
pub(crate) fn put_opcode_facts<'a, C: Conditions, W: Write>(
    page: Page<'a, '_, C>,
    ways: &Ways,
    names: &StoreNames<'a>,
    origin: Origin,
    question: Question<'a>,
    out: &mut Watched<W>,
)
    requires ways { TellsWays (world_of page) ways.now }
    requires names { names.now ≡ bytes_of page.policy }
    requires in_list { origin.place + (question_node question).place < 2 ^ 64 }
    ensures { Puts W.contents out.old out.new
        (opcode_facts (audited page.entry) (has_number ways.now.reached) origin
        (question_view question.entry)) }
{
    let statement = question.statement();
    put_prompt_line(page, question, out);
    put_help(page.text(statement.op().help()), out);
    put_form_fact(page, ways, statement, out);
    put_opcode_fact(origin, question, out);
    put_field_fact(names, question.field(), out);
}

//! The questions that a condition asks.

ghost use Rattle.std.specs.Prelude.{◌≡◌, ℕ, IfOk, filter, option_map};
ghost use Rattle.std.specs.List.{flat_map};
ghost use Rattle.hii_bytes.specs.Watching.{Puts};
ghost use Rattle.hii_bytes.specs.code.NumberSets.{has_number};
ghost use Rattle.ifr_nodes.specs.Nodes.{nodes_of};
ghost use Rattle.ifr_nodes.specs.code.Checked.{IsNodeOf};
ghost use Rattle.ifr_scopes.specs.code.AnyConditions.{any_condition_node};
ghost use Rattle.hii_questions.specs.Fields.{asked, question_with};
ghost use Rattle.hii_questions.specs.code.Ranges.{range_in};
ghost use Rattle.hii_questions.specs.code.Views.{question_node, question_view};
ghost use Rattle.guard_policy.specs.code.Views.{bytes_of};
ghost use Rattle.question_audit.specs.QuestionLines.{word_where};
ghost use Rattle.question_audit.specs.Dependences.{all_ids};
ghost use Rattle.script_audit.specs.Depends as spec;
ghost use Rattle.script_audit.specs.code.Pages.{seen_in};

use crate::spelling::{put_back, put_front, put_spelled};
use crate::values::{put_field, put_script, put_value};
use audit_json::Telling;
use form_page::Page;
use guard_policy::Conditions;
use hii_bytes::{NumberSet, Watched};
use hii_questions::{FieldRange, Question, read_value};
use ifr_expr::Value;
use ifr_scopes::{AnyCondition, Forms};
use question_audit::{StoreNames, put_id, put_verdict_text};
use std::alloc::{AllocError, Global};
use std::io::Write;

// How many ids there are.
const IDS: u32 = 65_536;

/// The ids of the questions that a condition asks.
pub(crate) fn ids_of<'a>(
    alloc: Global,
    forms: &Forms<'a>,
    condition: AnyCondition<'a>,
) -> Result<NumberSet, AllocError>
    ensures { IfOk result (λ ids. (id : ℕ) → has_number ids id
        ≡ spec.asks (nodes_of forms.now) (any_condition_node condition.entry) id) }
{
    let mut ids = NumberSet::new(alloc)?;
    let mut named = forms.dependence(condition.condition(), condition.this());
    while let Some(id) = named.next() {
        ids.insert(id);
    }
    Ok(ids)
}

// Writes where a field lies behind a space, if there is one.
fn put_field_behind<W: Write>(
    telling: Telling,
    names: &StoreNames<'_>,
    field: Option<FieldRange>,
    out: &mut Watched<W>,
)
    ensures { Puts W.contents out.old out.new
        (spec.field_behind telling (nodes_of names.now) (option_map range_in field)) }
{
    if let Some(field) = field {
        out.put(b" ");
        put_field(telling, names, field, out);
    }
}

// Writes what a question answers, its field and whether it may be changed, or that it has no answer.
fn put_answer<'a, C: Conditions, W: Write>(
    telling: Telling,
    page: Page<'a, '_, C>,
    names: &StoreNames<'a>,
    question: Question<'a>,
    out: &mut Watched<W>,
)
    requires node { IsNodeOf (bytes_of page.policy) (question_node question) }
    requires asked { question_view question
        ≡ asked (nodes_of (bytes_of page.policy)) (question_node question) }
    requires names { names.now ≡ bytes_of page.policy }
    ensures { Puts W.contents out.old out.new
        (spec.answer_text telling (seen_in page.entry) (question_view question.entry)) }
{
    let value = read_value(question, page.stores());
    if let Value::Undefined = value {
        out.put(b"has no answer here");
        return;
    }
    out.put(b"[");
    put_value(telling, page, question, out);
    out.put(b"]");
    put_script::<C, W>(telling, question.statement(), value, out);
    put_field_behind(telling, names, question.field(), out);
    out.put(b" ");
    let verdict = page
        .policy()
        .question_changeable_by(question, page.conditions());
    put_verdict_text(verdict, out);
}

// Writes the prompt of the question of an id and its answer, or that there is no such question.
fn put_question_with<'a, C: Conditions, W: Write>(
    telling: Telling,
    page: Page<'a, '_, C>,
    names: &StoreNames<'a>,
    id: u16,
    out: &mut Watched<W>,
)
    requires { names.now ≡ bytes_of page.policy }
    ensures { Puts W.contents out.old out.new
        (spec.question_text telling (seen_in page.entry)
        (question_with (nodes_of (bytes_of page.entry.policy)) id)) }
{
    match page.questions().find(id) {
        Some(question) => {
            let prompt = page.text(question.statement().op().prompt());
            put_spelled(telling, prompt.chars(), out);
            out.put(b" ");
            put_answer(telling, page, names, question, out);
        }
        None => out.put(b"no such question"),
    }
}

// Writes the question of an id with its answer.
fn put_dependence<'a, C: Conditions, W: Write>(
    telling: Telling,
    page: Page<'a, '_, C>,
    names: &StoreNames<'a>,
    id: u16,
    out: &mut Watched<W>,
)
    requires { names.now ≡ bytes_of page.policy }
    ensures { Puts W.contents out.old out.new (spec.depends_told telling (seen_in page.entry) id) }
{
    put_front(telling, b"depends  ", b"depends", b"text", out);
    put_id(id, out);
    out.put(b" ");
    put_question_with(telling, page, names, id, out);
    put_back(telling, out);
}

// Writes the question of an id with its answer, if it is one of some ids.
fn put_if_among<'a, C: Conditions, W: Write>(
    telling: Telling,
    page: Page<'a, '_, C>,
    names: &StoreNames<'a>,
    ids: &NumberSet,
    id: u16,
    out: &mut Watched<W>,
)
    requires { names.now ≡ bytes_of page.policy }
    ensures { Puts W.contents out.old out.new
        (word_where (has_number ids.now id) (spec.depends_told telling (seen_in page.entry) id)) }
{
    if ids.contains(id) {
        put_dependence(telling, page, names, id, out);
    }
}

/// Writes the questions of some ids, by rising ids.
pub(crate) fn put_depends<'a, C: Conditions, W: Write>(
    telling: Telling,
    page: Page<'a, '_, C>,
    names: &StoreNames<'a>,
    ids: &NumberSet,
    out: &mut Watched<W>,
)
    requires { names.now ≡ bytes_of page.policy }
    ensures { Puts W.contents out.old out.new
        (flat_map (spec.depends_told telling (seen_in page.entry)) (filter (has_number ids.now) all_ids)) }
{
    let mut number = 0;
    while number < IDS {
        put_if_among(telling, page, names, ids, number as u16, out);
        number += 1;
    }
}

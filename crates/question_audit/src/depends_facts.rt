//! On which questions it depends whether a question may be changed.

ghost use Rattle.std.specs.Prelude.{◌≡◌, ◌||◌, ℕ, [], IfOk, OnOk, OnErr, option_map, option_to_list};
ghost use Rattle.std.specs.List.{list_any};
ghost use Rattle.hii_bytes.specs.Watching.{Puts};
ghost use Rattle.ifr_opcodes.specs.Rows.{is_among};
ghost use Rattle.ifr_expr.specs.code.Expressions.{tree_of};
ghost use Rattle.ifr_nodes.specs.Nodes.{nodes_of};
ghost use Rattle.ifr_nodes.specs.code.Checked.{IsNodeOf};
ghost use Rattle.ifr_scopes.specs.code.Frames.{ids_by};
ghost use Rattle.ifr_scopes.specs.code.Lists.{statement_node};
ghost use Rattle.hii_questions.specs.Fields.{asked, question_with};
ghost use Rattle.hii_questions.specs.code.Ranges.{range_in};
ghost use Rattle.hii_questions.specs.code.Views.{question_node, question_view};
ghost use Rattle.guard_policy.specs.code.Views.{bytes_of};
ghost use Rattle.question_audit.specs.code.Ids.{AreIds, has_id};
ghost use Rattle.question_audit.specs.code.NamedRules.{AreRulesAt, has_id_at, own_ids};
ghost use Rattle.question_audit.specs.code.Pages.{audited};
ghost use Rattle.question_audit.specs.Dependences.{answer_text, dependence_text, depends_fact, depends_facts, depends_word, field_behind, support_ids};

use crate::facts::{put_column, put_id, put_verdict_text};
use crate::fields::put_field_text;
use crate::ids::add_id;
use crate::rule_facts::add_named;
use crate::script_values::put_script_value;
use crate::shown_values::put_told_value;
use crate::store_names::StoreNames;
use crate::when::When;
use audit_text::put_safe_shown;
use form_page::Page;
use guard_policy::{Conditions, Policy};
use hii_bytes::Watched;
use hii_questions::{FieldRange, Question, read_value};
use ifr_expr::{Expr, Name, Value};
use ifr_nodes::{expression_of, node_at};
use ifr_scopes::{Forms, Statement};
use std::alloc::{AllocError, Global};
use std::collections::BTreeSet;
use std::io::Write;

// The id of the question that a name names by itself, where it stands in the scope of the question of an id, or of 0
// for none.
#[tactic(auto, unfolding(ifr_expr::specs::Dependence::rule_ids))]
fn id_of(name: Name, this: u16) -> Option<u16>
    ensures { option_to_list result ≡ ids_by [] this name }
{
    match name {
        Name::Question(id) => Some(id),
        Name::This => {
            if this == 0 {
                return None;
            }
            Some(this)
        }
        Name::Rule(_) => None,
    }
}

// Adds the ids of the questions that an expression names by itself.
fn add_own(expression: Expr<'_>, this: u16, ids: &mut BTreeSet<u16>) -> Result<(), AllocError>
    ensures named { OnOk result ((id : ℕ) → has_id ids.new id
        ≡ (has_id ids.old id || is_among id (own_ids this (tree_of expression.entry)))) }
    ensures are { AreIds ids.old → OnOk result (AreIds ids.new) }
{
    let mut names = expression.names();
    while let Some(name) = names.next() {
        if let Some(id) = id_of(name, this) {
            add_id(ids, id)?;
        }
    }
    Ok(())
}

// Adds those that the rules at these places name by themselves.
fn add_of_rules(
    forms: &Forms<'_>,
    places: &BTreeSet<u32>,
    ids: &mut BTreeSet<u16>,
) -> Result<(), AllocError>
    requires { AreRulesAt forms.now places.now.keys }
    ensures named { OnOk result ((id : ℕ) → has_id ids.new id
        ≡ (has_id ids.old id || list_any (has_id_at forms.now id) places.now.keys)) }
    ensures are { AreIds ids.old → OnOk result (AreIds ids.new) }
{
    let mut left = places.iter();
    while let Some(place) = left.next() {
        let rule = node_at(forms.bytes(), *place);
        add_own(expression_of(rule), 0, ids)?;
    }
    Ok(())
}

/// The ids of the questions on whose answers it depends then whether a statement may be changed, rising. The one error is that an
/// allocation failed.
pub fn support_of<'a>(
    alloc: Global,
    policy: Policy<'a, '_>,
    statement: Statement<'a>,
    when: When,
) -> Result<BTreeSet<u16>, AllocError>
    requires { IsNodeOf (bytes_of policy) (statement_node statement) }
    ensures { IfOk result (λ ids. ids.keys
        ≡ support_ids when (nodes_of (bytes_of policy.entry)) (statement_node statement.entry)) }
{
    let mut ids = BTreeSet::new(alloc);
    let mut places = BTreeSet::new(alloc);
    let forms = policy.forms();
    let mut guards = forms.guards_at(statement.place());
    while let Some(guard) = guards.next() {
        if when.counts(guard) {
            add_own(guard.condition(), guard.this(), &mut ids)?;
            add_named(alloc, forms, guard.condition(), &mut places)?;
        }
    }
    add_of_rules(forms, &places, &mut ids)?;
    Ok(ids)
}

// Writes where a field lies behind a space, if there is one.
fn put_field_behind<W: Write>(
    names: &StoreNames<'_>,
    field: Option<FieldRange>,
    out: &mut Watched<W>,
)
    ensures { Puts W.contents out.old out.new
        (field_behind (nodes_of names.now) (option_map range_in field)) }
{
    if let Some(field) = field {
        out.put(b" ");
        put_field_text(names, field, out);
    }
}

// Writes what a question answers, its field and whether it may be changed, or that it has no answer.
fn put_answer<'a, C: Conditions, W: Write>(
    page: Page<'a, '_, C>,
    names: &StoreNames<'a>,
    question: Question<'a>,
    out: &mut Watched<W>,
)
    requires node { IsNodeOf (bytes_of page.policy) (question_node question) }
    requires asked { question_view question
        ≡ asked (nodes_of (bytes_of page.policy)) (question_node question) }
    requires names { names.now ≡ bytes_of page.policy }
    ensures { Puts W.contents out.old out.new
        (answer_text (audited page.entry) (question_view question.entry)) }
{
    let value = read_value(question, page.stores());
    if let Value::Undefined = value {
        out.put(b"has no answer here");
        return;
    }
    out.put(b"[");
    put_told_value(page, question, out);
    out.put(b"]");
    put_script_value::<C, W>(b" value ", question.statement(), value, out);
    put_field_behind(names, question.field(), out);
    out.put(b" ");
    let verdict = page
        .policy()
        .question_changeable_by(question, page.conditions());
    put_verdict_text(verdict, out);
}

// Writes the prompt of the question of an id and its answer, or that there is no such question.
fn put_question_with<'a, C: Conditions, W: Write>(
    page: Page<'a, '_, C>,
    names: &StoreNames<'a>,
    id: u16,
    out: &mut Watched<W>,
)
    requires { names.now ≡ bytes_of page.policy }
    ensures { Puts W.contents out.old out.new
        (dependence_text (audited page.entry)
        (question_with (nodes_of (bytes_of page.entry.policy)) id)) }
{
    match page.questions().find(id) {
        Some(question) => {
            put_safe_shown(page.text(question.statement().op().prompt()).chars(), out);
            out.put(b" ");
            put_answer(page, names, question, out);
        }
        None => out.put(b"no such question"),
    }
}

// The word before a question on which it depends.
fn word_of(when: When) -> &'static [u8]
    ensures { result.now ≡ depends_word when }
{
    match when {
        When::AtCommands => b"depends",
        When::AtOpening => b"opening",
    }
}

// Writes the question of an id with its answer.
fn put_dependence<'a, C: Conditions, W: Write>(
    page: Page<'a, '_, C>,
    names: &StoreNames<'a>,
    when: When,
    id: u16,
    out: &mut Watched<W>,
)
    requires { names.now ≡ bytes_of page.policy }
    ensures { Puts W.contents out.old out.new (depends_fact when (audited page.entry) id) }
{
    put_column(word_of(when), out);
    put_id(id, out);
    out.put(b" ");
    put_question_with(page, names, id, out);
    out.put(b"\n");
}

/// Writes the questions on whose answers it depends then whether a statement may be changed, by rising ids. Where an allocation fails
/// nothing is written.
pub(crate) fn put_depends<'a, C: Conditions, W: Write>(
    alloc: Global,
    page: Page<'a, '_, C>,
    names: &StoreNames<'a>,
    statement: Statement<'a>,
    when: When,
    out: &mut Watched<W>,
) -> Result<(), AllocError>
    requires node { IsNodeOf (bytes_of page.policy) (statement_node statement) }
    requires names { names.now ≡ bytes_of page.policy }
    ensures told { OnOk result (Puts W.contents out.old out.new
        (depends_facts when (audited page.entry) (statement_node statement.entry))) }
    ensures nothing { OnErr result (out.new ≡ out.old) }
{
    let ids = support_of(alloc, page.policy(), statement, when)?;
    let mut left = ids.iter();
    while let Some(id) = left.next() {
        put_dependence(page, names, when, *id, out);
    }
    Ok(())
}

//! Which questions depend on another one where it is asked whether they may be changed.

ghost use Rattle.std.specs.Prelude.{◌≡◌, ℕ, true, is_some, IfOk, OnOk, OnErr, length};
ghost use Rattle.std.specs.List.{flat_map, list_any};
ghost use Rattle.hii_bytes.specs.Watching.{Puts};
ghost use Rattle.ifr_expr.specs.code.Expressions.{tree_of};
ghost use Rattle.ifr_expr.specs.code.Names.{names_in};
ghost use Rattle.ifr_nodes.specs.Guards.{guards_among};
ghost use Rattle.ifr_nodes.specs.Nodes.{nodes_of};
ghost use Rattle.ifr_nodes.specs.code.Checked.{IsNodeOf};
ghost use Rattle.ifr_scopes.specs.code.Lists.{guard_node, guard_package};
ghost use Rattle.hii_questions.specs.code.Views.{question_node, question_view};
ghost use Rattle.guard_policy.specs.code.Views.{bytes_of};
ghost use Rattle.question_audit.specs.code.Pages.{audited};
ghost use Rattle.question_audit.specs.Dependences.{all_decides_facts, decided_by, decides_fact, is_decided_by, when_text};
ghost use Rattle.question_audit.specs.code.Leading.{AreLeading, leads};
ghost use Rattle.question_audit.specs.code.Naming.{counts, names, naming};
ghost use Rattle.question_audit.specs.code.Places.{has_place};

use crate::condition_facts::KEPT_RULES;
use crate::facts::put_column;
use crate::guard_table::flag_of;
use crate::places::{add_place, has_place};
use crate::when::When;
use audit_text::put_safe_shown;
use form_page::Page;
use guard_policy::{Conditions, Policy};
use hii_bytes::Watched;
use hii_questions::Question;
use ifr_expr::{Expr, Name};
use ifr_scopes::{Forms, Guard};
use std::alloc::{AllocError, Global};
use std::collections::BTreeSet;
use std::io::Write;

// Whether a name is that of the question of an id, or of a rule that leads to it, where these are the places of the
// rules that do. It stands in the scope of the question of another id, or of 0 for none.
fn is_leading(forms: &Forms<'_>, rules: &BTreeSet<u32>, name: Name, this: u16, id: u16) -> bool
    ensures { result ≡ leads (nodes_of forms.now) (has_place rules.now) this id name }
{
    match name {
        Name::Question(other) => other == id,
        Name::This => this != 0 && this == id,
        Name::Rule(reference) => match forms.rule_named(reference.id, reference.place) {
            Some(rule) => has_place(rules, rule.place()),
            None => false,
        },
    }
}

// Whether an expression names the question of an id, or a rule that leads to it.
fn leads<'a>(
    forms: &Forms<'a>,
    rules: &BTreeSet<u32>,
    expression: Expr<'a>,
    this: u16,
    id: u16,
) -> bool
    ensures { result ≡ list_any (leads (nodes_of forms.now) (has_place rules.now) this id)
        (names_in (tree_of expression.entry)) }
{
    let mut names = expression.names();
    while let Some(name) = names.next() {
        if is_leading(forms, rules, name, this, id) {
            return true;
        }
    }
    false
}

// The places of the rules whose values depend on the answer to the question of an id. A rule names only rules that end
// before it does.
fn leading_rules(alloc: Global, forms: &Forms<'_>, id: u16) -> Result<BTreeSet<u32>, AllocError>
    ensures { IfOk result (λ places. AreLeading (nodes_of forms.now) id (has_place places)) }
{
    // The package is accepted.
    forms.bytes();
    let mut places = BTreeSet::new(alloc);
    let mut rules = forms.rules();
    while let Some(rule) = rules.next() {
        if leads(forms, &places, rule.expression(), 0, id) {
            add_place(&mut places, rule.place())?;
        }
    }
    Ok(places)
}

// Whether the condition of a guard depends on the answer to the question of an id.
fn names<'a>(forms: &Forms<'a>, guard: Guard<'a>, id: u16) -> bool
    ensures { result ≡ names (nodes_of forms.now) id (guard_node guard.entry) }
{
    let mut ids = forms.dependence(guard.condition(), guard.this());
    while let Some(named) = ids.next() {
        if named == id {
            return true;
        }
    }
    false
}

// What `guards_naming` tells, with nothing kept of rules.
fn guards_asked(alloc: Global, forms: &Forms<'_>, id: u16) -> Result<Vec<bool>, AllocError>
    ensures { IfOk result (λ flags. flags.items ≡ naming (nodes_of forms.now) id) }
{
    let mut flags = Vec::with_capacity(alloc, forms.guard_count())?;
    let mut guards = forms.guards();
    while let Some(guard) = guards.next() {
        flags.push(names(forms, guard, id))?;
    }
    Ok(flags)
}

/// Of each guard of a package, by place, whether its condition depends on the answer to the question of an id.
pub fn guards_naming(alloc: Global, forms: &Forms<'_>, id: u16) -> Result<Vec<bool>, AllocError>
    ensures { IfOk result (λ flags. flags.items ≡ naming (nodes_of forms.now) id) }
{
    if forms.rule_count() > KEPT_RULES {
        return guards_asked(alloc, forms, id);
    }
    let mut flags = Vec::with_capacity(alloc, forms.guard_count())?;
    let rules = leading_rules(alloc, forms, id)?;
    let mut guards = forms.guards();
    while let Some(guard) = guards.next() {
        flags.push(leads(forms, &rules, guard.condition(), guard.this(), id))?;
    }
    Ok(flags)
}

// Whether the condition of a guard decides then that depends on the answer to a question, where these are the guards whose conditions
// do.
fn counts(flags: &[bool], guard: Guard<'_>, when: When) -> bool
    requires numbered { is_some guard.number ≡ true }
    requires all { length flags.now ≡ length (guards_among (nodes_of (guard_package guard))) }
    ensures { (id : ℕ) → flags.now ≡ naming (nodes_of (guard_package guard.entry)) id
        → result ≡ counts when (nodes_of (guard_package guard.entry)) id (guard_node guard.entry) }
{
    when.counts(guard) && flag_of(flags, guard)
}

/// Whether it depends then on the answer to a question whether another may be changed, where these are the guards whose conditions do.
pub fn is_decided<'a>(
    policy: Policy<'a, '_>,
    flags: &[bool],
    question: Question<'a>,
    when: When,
) -> bool
    requires node { IsNodeOf (bytes_of policy) (question_node question) }
    requires all { length flags.now ≡ length (guards_among (nodes_of (bytes_of policy))) }
    ensures { (id : ℕ) → flags.now ≡ naming (nodes_of (bytes_of policy.entry)) id
        → result ≡ is_decided_by when (nodes_of (bytes_of policy.entry)) id (question_view question.entry) }
{
    let mut guards = policy.forms().guards_at(question.place());
    while let Some(guard) = guards.step() {
        if counts(flags, guard, when) {
            return true;
        }
    }
    false
}

// What stands behind a question that is decided then.
fn behind(when: When) -> &'static [u8]
    ensures { result.now ≡ when_text when }
{
    match when {
        When::AtCommands => b"",
        When::AtOpening => b" (at opening)",
    }
}

// Writes a question that is decided.
fn put_decided<'a, C: Conditions, W: Write>(
    page: Page<'a, '_, C>,
    question: Question<'a>,
    when: When,
    out: &mut Watched<W>,
)
    ensures { Puts W.contents out.old out.new
        (decides_fact when (audited page.entry) (question_view question.entry)) }
{
    put_column(b"decides", out);
    out.put_decimal(u64::from(question.id()));
    out.put(b" ");
    put_safe_shown(page.text(question.statement().op().prompt()).chars(), out);
    out.put(behind(when));
    out.put(b"\n");
}

// Writes the questions of which it depends then whether they may be changed, by place, where these are the guards whose conditions name
// the question that decides.
fn put_decided_when<'a, C: Conditions, W: Write>(
    page: Page<'a, '_, C>,
    flags: &[bool],
    when: When,
    out: &mut Watched<W>,
)
    requires { length flags.now ≡ length (guards_among (nodes_of (bytes_of page.policy))) }
    ensures { (id : ℕ) → flags.now ≡ naming (nodes_of (bytes_of page.entry.policy)) id
        → Puts W.contents out.old out.new
        (flat_map (decides_fact when (audited page.entry)) (decided_by when (nodes_of (bytes_of page.entry.policy)) id)) }
{
    let policy = page.policy();
    let mut questions = page.questions().all();
    while let Some(other) = questions.next() {
        if is_decided(policy, flags, other, when) {
            put_decided(page, other, when, out);
        }
    }
}

/// Writes the questions whose changing depends on the answer to a question, by place: those at commands, then those at opening. Where an
/// allocation fails nothing is written.
pub(crate) fn put_decides<'a, C: Conditions, W: Write>(
    alloc: Global,
    page: Page<'a, '_, C>,
    question: Question<'a>,
    out: &mut Watched<W>,
) -> Result<(), AllocError>
    ensures told { OnOk result (Puts W.contents out.old out.new
        (all_decides_facts (audited page.entry) (question_node question.entry))) }
    ensures nothing { OnErr result (out.new ≡ out.old) }
{
    let flags = guards_naming(alloc, page.policy().forms(), question.id())?;
    put_decided_when(page, &flags, When::AtCommands, out);
    put_decided_when(page, &flags, When::AtOpening, out);
    Ok(())
}

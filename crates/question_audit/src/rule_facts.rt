//! The rules that the conditions of a question name.

ghost use Rattle.std.specs.Prelude.{◌≡◌, ◌||◌, ◌+◌, ◌<◌, ◌^◌, ℕ, IfOk, OnOk, OnErr, length};
ghost use Rattle.std.specs.List.{flat_map, list_any};
ghost use Rattle.hii_bytes.specs.Watching.{Puts};
ghost use Rattle.ifr_expr.specs.code.Expressions.{tree_of};
ghost use Rattle.ifr_opcodes.specs.Fields.{rule_id};
ghost use Rattle.ifr_nodes.specs.Guards.{guards};
ghost use Rattle.ifr_nodes.specs.Nodes.{nodes_of};
ghost use Rattle.ifr_nodes.specs.Rules.{rules_among};
ghost use Rattle.ifr_nodes.specs.code.Checked.{IsNodeOf};
ghost use Rattle.ifr_scopes.specs.code.Lists.{rule_node};
ghost use Rattle.hii_questions.specs.code.Views.{question_node};
ghost use Rattle.guard_policy.specs.code.Views.{bytes_of};
ghost use Rattle.question_audit.specs.code.Pages.{audited};
ghost use Rattle.question_audit.specs.ConditionFacts.{checks};
ghost use Rattle.question_audit.specs.RuleFacts.{condition_references, inner_guards, is_named, names_rule, references_over, rule_fact, rule_facts, rule_references};
ghost use Rattle.question_audit.specs.code.NamedRules.{IsClosed};
ghost use Rattle.question_audit.specs.code.Places.{has_place};

use crate::facts::put_column;
use crate::places::{add_place, has_place};
use audit_text::put_hexadecimal;
use condition_text::ConditionText;
use form_page::Page;
use guard_policy::{Conditions, Policy};
use hii_bytes::Watched;
use hii_questions::Question;
use ifr_expr::Expr;
use ifr_nodes::node_at;
use ifr_scopes::{Forms, RuleView};
use std::alloc::{AllocError, Global};
use std::collections::BTreeSet;
use std::io::Write;

/// Adds the places of the rules that an expression names, and of those that these name in turn. A rule whose place is
/// there is not looked at again.
pub(crate) fn add_named<'a>(
    alloc: Global,
    forms: &Forms<'a>,
    expression: Expr<'a>,
    places: &mut BTreeSet<u32>,
) -> Result<(), AllocError>
    requires { IsClosed (nodes_of forms.now) (has_place places.old) }
    ensures places { OnOk result ((place : ℕ) → has_place places.new place ≡ (has_place places.old place
        || list_any (names_rule (nodes_of forms.now) place)
        (references_over (rule_references (rules_among (nodes_of forms.now))) (tree_of expression.entry)))) }
    ensures closed { OnOk result (IsClosed (nodes_of forms.now) (has_place places.new)) }
{
    // The package is accepted, so that no rule names one behind it.
    forms.bytes();
    let mut frames = Vec::new(alloc);
    frames.push(expression.references())?;
    while let Some(mut references) = frames.pop() {
        let Some(reference) = references.next() else {
            continue;
        };
        frames.push(references)?;
        if let Some(rule) = forms.rule_named(reference.id, reference.place) {
            if add_place(places, rule.place())? {
                frames.push(rule.expression().references())?;
            }
        }
    }
    Ok(())
}

// Adds those that the guards around a question name.
fn add_around<'a>(
    alloc: Global,
    policy: Policy<'a, '_>,
    question: Question<'a>,
    places: &mut BTreeSet<u32>,
) -> Result<(), AllocError>
    requires node { IsNodeOf (bytes_of policy) (question_node question) }
    requires closed { IsClosed (nodes_of (bytes_of policy)) (has_place places.old) }
    ensures places { OnOk result ((place : ℕ) → has_place places.new place ≡ (has_place places.old place
        || list_any (names_rule (nodes_of (bytes_of policy.entry)) place)
        (flat_map (condition_references (nodes_of (bytes_of policy.entry))) (guards (question_node question.entry))))) }
    ensures closed { OnOk result (IsClosed (nodes_of (bytes_of policy.entry)) (has_place places.new)) }
{
    let forms = policy.forms();
    let mut guards = forms.guards_at(question.place());
    while let Some(guard) = guards.next() {
        add_named(alloc, forms, guard.condition(), places)?;
    }
    Ok(())
}

// Adds those that the guards in the scope of a question name.
fn add_inside<'a>(
    alloc: Global,
    policy: Policy<'a, '_>,
    question: Question<'a>,
    places: &mut BTreeSet<u32>,
) -> Result<(), AllocError>
    requires node { IsNodeOf (bytes_of policy) (question_node question) }
    requires closed { IsClosed (nodes_of (bytes_of policy)) (has_place places.old) }
    ensures places { OnOk result ((place : ℕ) → has_place places.new place ≡ (has_place places.old place
        || list_any (names_rule (nodes_of (bytes_of policy.entry)) place)
        (flat_map (condition_references (nodes_of (bytes_of policy.entry))) (inner_guards (question_node question.entry))))) }
    ensures closed { OnOk result (IsClosed (nodes_of (bytes_of policy.entry)) (has_place places.new)) }
{
    let forms = policy.forms();
    let mut guards = forms.guards_in(question.statement());
    while let Some(guard) = guards.next() {
        add_named(alloc, forms, guard.condition(), places)?;
    }
    Ok(())
}

// Adds those that the checks of a question name.
fn add_checked<'a>(
    alloc: Global,
    policy: Policy<'a, '_>,
    question: Question<'a>,
    places: &mut BTreeSet<u32>,
) -> Result<(), AllocError>
    requires node { IsNodeOf (bytes_of policy) (question_node question) }
    requires closed { IsClosed (nodes_of (bytes_of policy)) (has_place places.old) }
    ensures places { OnOk result ((place : ℕ) → has_place places.new place ≡ (has_place places.old place
        || list_any (names_rule (nodes_of (bytes_of policy.entry)) place)
        (flat_map (condition_references (nodes_of (bytes_of policy.entry))) (checks (question_node question.entry))))) }
    ensures closed { OnOk result (IsClosed (nodes_of (bytes_of policy.entry)) (has_place places.new)) }
{
    let forms = policy.forms();
    let mut checks = forms.conditions_in(question.statement());
    while let Some(check) = checks.next() {
        add_named(alloc, forms, check.condition(), places)?;
    }
    Ok(())
}

/// The places of the rules that the conditions of a question name, and of those that these name in turn.
pub fn named_rules<'a>(
    alloc: Global,
    policy: Policy<'a, '_>,
    question: Question<'a>,
) -> Result<BTreeSet<u32>, AllocError>
    requires { IsNodeOf (bytes_of policy) (question_node question) }
    ensures { IfOk result (λ places. (place : ℕ) → has_place places place
        ≡ is_named (nodes_of (bytes_of policy.entry)) (question_node question.entry) place) }
{
    let mut places = BTreeSet::new(alloc);
    add_around(alloc, policy, question, &mut places)?;
    add_inside(alloc, policy, question, &mut places)?;
    add_checked(alloc, policy, question, &mut places)?;
    Ok(places)
}

/// The id of a rule of a package.
pub fn id_of_rule<'a>(forms: &Forms<'a>, rule: RuleView<'a>) -> u8
    requires { IsNodeOf forms.now (rule_node rule) }
    ensures { result ≡ rule_id (rule_node rule.entry).op }
{
    node_at(forms.bytes(), rule.place()).rule().id()
}

// Writes a rule.
fn put_rule<'a, W: Write>(
    forms: &Forms<'a>,
    package_place: u64,
    rule: RuleView<'a>,
    out: &mut Watched<W>,
)
    requires node { IsNodeOf forms.now (rule_node rule) }
    requires in_list { package_place + (rule_node rule).place < 2 ^ 64 }
    ensures { Puts W.contents out.old out.new
        (rule_fact package_place (rule_node rule.entry)) }
{
    let text = ConditionText::of(rule.expression());
    let id = id_of_rule(forms, rule);
    let place = u64::from(rule.place());
    put_column(b"rule", out);
    out.put_decimal(u64::from(id));
    out.put(b" at ");
    out.put_place(place);
    out.put(b" (byte ");
    put_hexadecimal(out, package_place + place);
    out.put(b"): ");
    text.put(out);
    out.put(b"\n");
}

/// Writes the rules that the conditions of a question name, and those that these name in turn, by place. Where an allocation fails
/// nothing is written.
pub(crate) fn put_rules<'a, C: Conditions, W: Write>(
    alloc: Global,
    page: Page<'a, '_, C>,
    package_place: u64,
    question: Question<'a>,
    out: &mut Watched<W>,
) -> Result<(), AllocError>
    requires node { IsNodeOf (bytes_of page.policy) (question_node question) }
    requires in_list { package_place + length (bytes_of page.policy) < 2 ^ 64 }
    ensures told { OnOk result (Puts W.contents out.old out.new
        (rule_facts (audited page.entry) package_place (question_node question.entry))) }
    ensures nothing { OnErr result (out.new ≡ out.old) }
{
    let places = named_rules(alloc, page.policy(), question)?;
    let forms = page.policy().forms();
    let mut rules = forms.rules();
    while let Some(rule) = rules.next() {
        if has_place(&places, rule.place()) {
            put_rule(forms, package_place, rule, out);
        }
    }
    Ok(())
}

//! The guards and the rules of a form set, each once.

ghost use Rattle.std.specs.Prelude.{◌≡◌, ◌+◌, ◌<◌, ◌^◌, OnOk, OnErr, length};
ghost use Rattle.std.specs.List.{flat_map};
ghost use Rattle.hii_bytes.specs.Watching.{Puts, pen_of};
ghost use Rattle.ifr_nodes.specs.Nodes.{nodes_of};
ghost use Rattle.ifr_nodes.specs.code.Checked.{IsNodeOf};
ghost use Rattle.ifr_scopes.specs.code.Lists.{guard_node, rule_node};
ghost use Rattle.guard_policy.specs.code.Views.{bytes_of};
ghost use Rattle.question_audit.specs.code.Pages.{audited};
ghost use Rattle.question_audit.specs.code.Beginnings.{Begins};
ghost use Rattle.question_objects.specs.FormSets.{condition_object, guard_object, rule_object};

use crate::conditions::put_condition;
use crate::guards::heading_of;
use crate::rules::put_rule_members;
use audit_json::{end_object, put_kind, put_number, put_word};
use audit_text::opcode_name;
use condition_text::ConditionText;
use form_page::Page;
use guard_policy::Conditions;
use hii_bytes::Watched;
use ifr_nodes::Nodes;
use ifr_scopes::{Forms, Guard, RuleView};
use question_audit::id_of_rule;
use std::alloc::{AllocError, Global};
use std::io::Write;

// Writes a guard as an object.
fn put_guard_object<'a, C: Conditions, W: Write>(
    page: Page<'a, '_, C>,
    package_place: u64,
    guard: Guard<'a>,
    out: &mut Watched<W>,
)
    requires { package_place + (guard_node guard).place < 2 ^ 64 }
    ensures { Puts W.contents out.old out.new
        (guard_object (audited page.entry) package_place (guard_node guard.entry)) }
{
    let text = ConditionText::of(guard.condition());
    put_kind(b"guard", out);
    put_word(b"opcode", opcode_name(guard.code()), out);
    put_condition(heading_of(page, package_place, guard), &text, out);
    end_object(out);
}

// Writes a rule as an object.
fn put_rule_object<'a, W: Write>(
    forms: &Forms<'a>,
    package_place: u64,
    rule: RuleView<'a>,
    out: &mut Watched<W>,
)
    requires node { IsNodeOf forms.now (rule_node rule) }
    requires in_file { package_place + (rule_node rule).place < 2 ^ 64 }
    ensures { Puts W.contents out.old out.new
        (rule_object package_place (rule_node rule.entry)) }
{
    let text = ConditionText::of(rule.expression());
    let id = id_of_rule(forms, rule);
    put_kind(b"rule", out);
    put_number(b"rule", u64::from(id), out);
    put_rule_members(package_place, rule.place(), &text, out);
    end_object(out);
}

/// Writes the guards and the rules of the form set of a page, by place.
pub(crate) fn put_condition_objects<'a, C: Conditions, W: Write>(
    page: Page<'a, '_, C>,
    package_place: u64,
    out: &mut Watched<W>,
)
    requires { package_place + length (bytes_of page.policy) < 2 ^ 64 }
    ensures { Puts W.contents out.old out.new
        (flat_map (condition_object (audited page.entry) package_place) (nodes_of (bytes_of page.entry.policy))) }
{
    let forms = page.policy().forms();
    let mut guards = forms.guards();
    let mut rules = forms.rules();
    let mut nodes = Nodes::over(forms.bytes());
    while let Some(node) = nodes.step() {
        if node.is_guard() {
            if let Some(guard) = guards.next() {
                put_guard_object(page, package_place, guard, out);
            }
            continue;
        }
        if !node.is_rule() {
            continue;
        }
        if let Some(rule) = rules.next() {
            put_rule_object(forms, package_place, rule, out);
        }
    }
}

//! The rules that the conditions of questions name.

ghost use Rattle.std.specs.Prelude.{◌≡◌, ◌++◌, ◌+◌, ◌<◌, ◌^◌, ℕ, OnOk, OnErr, codes, length};
ghost use Rattle.hii_bytes.specs.Watching.{Puts, pen_of};
ghost use Rattle.audit_json.specs.Objects.{before_item};
ghost use Rattle.condition_text.specs.code.Conditions.{words_of};
ghost use Rattle.ifr_opcodes.specs.Forest.{Node as Placed};
ghost use Rattle.ifr_nodes.specs.Nodes.{nodes_of};
ghost use Rattle.ifr_nodes.specs.code.Checked.{IsNodeOf};
ghost use Rattle.ifr_scopes.specs.code.Lists.{rule_node};
ghost use Rattle.hii_questions.specs.code.Views.{question_node};
ghost use Rattle.guard_policy.specs.code.Views.{bytes_of};
ghost use Rattle.question_audit.specs.RuleFacts.{is_named, rule_words};
ghost use Rattle.question_audit.specs.code.Beginnings.{Begins};
ghost use Rattle.question_audit.specs.code.Places.{has_place};
ghost use Rattle.question_objects.specs.Conditions.{rule_item, rule_members, rules_member};
ghost use Rattle.question_objects.specs.declared.detail.Detail.TheVariants.{Alone};

use crate::conditions::put_words;
use crate::detail::Detail;
use crate::members::put_places;
use audit_json::{put_array_end, put_before_item, put_first_member};
use condition_text::ConditionText;
use form_page::Page;
use guard_policy::{Conditions, Policy};
use hii_bytes::Watched;
use hii_questions::Question;
use ifr_scopes::{Forms, RuleView};
use question_audit::{has_place, id_of_rule, named_rules};
use std::alloc::{AllocError, Global};
use std::collections::BTreeSet;
use std::io::Write;

/// Writes the places of a rule, and what it says.
pub(crate) fn put_rule_members<W: Write>(
    package_place: u64,
    place: u32,
    text: &ConditionText<'_>,
    out: &mut Watched<W>,
)
    requires { package_place + place < 2 ^ 64 }
    ensures { (r : Placed) → place ≡ r.place → words_of text.now ≡ rule_words r
        → Puts W.contents out.old out.new (rule_members package_place r) }
{
    put_places(package_place, place, out);
    put_words(text, out);
}

// Writes a rule, behind others or as the first one.
fn put_rule<'a, W: Write>(
    forms: &Forms<'a>,
    package_place: u64,
    rule: RuleView<'a>,
    is_first: bool,
    out: &mut Watched<W>,
)
    requires node { IsNodeOf forms.now (rule_node rule) }
    requires in_file { package_place + (rule_node rule).place < 2 ^ 64 }
    ensures { Puts W.contents out.old out.new
        (before_item (codes "rules") is_first ++ rule_item package_place (rule_node rule.entry)) }
{
    let text = ConditionText::of(rule.expression());
    let id = id_of_rule(forms, rule);
    put_before_item(b"rules", is_first, out);
    out.put(b"{");
    put_first_member(b"rule", out);
    out.put_decimal(u64::from(id));
    put_rule_members(package_place, rule.place(), &text, out);
    out.put(b"}");
}

// Writes the rules of a package at these places, by place.
fn put_at<'a, W: Write>(
    policy: Policy<'a, '_>,
    places: &BTreeSet<u32>,
    package_place: u64,
    out: &mut Watched<W>,
)
    requires { package_place + length (bytes_of policy) < 2 ^ 64 }
    ensures { (n : Placed)
        → ((place : ℕ) → has_place places.now place ≡ is_named (nodes_of (bytes_of policy.entry)) n place)
        → Puts W.contents out.old out.new
        (rules_member Alone (nodes_of (bytes_of policy.entry)) package_place n) }
{
    let forms = policy.forms();
    let mut rules = forms.rules();
    let mut is_first = true;
    while let Some(rule) = rules.next() {
        if !has_place(places, rule.place()) {
            continue;
        }
        put_rule(forms, package_place, rule, is_first, out);
        is_first = false;
    }
    put_array_end(is_first, out);
}

/// Writes the rules that the conditions of a question name, and those that these name in turn, by place, where it is told alone. Where
/// an allocation fails nothing is written.
pub(crate) fn put_rules<'a, C: Conditions, W: Write>(
    alloc: Global,
    page: Page<'a, '_, C>,
    detail: Detail,
    package_place: u64,
    question: Question<'a>,
    out: &mut Watched<W>,
) -> Result<(), AllocError>
    requires node { IsNodeOf (bytes_of page.policy) (question_node question) }
    requires in_file { package_place + length (bytes_of page.policy) < 2 ^ 64 }
    ensures told { OnOk result (Puts W.contents out.old out.new
        (rules_member detail (nodes_of (bytes_of page.entry.policy)) package_place (question_node question.entry))) }
    ensures nothing { OnErr result (out.new ≡ out.old) }
{
    match detail {
        Detail::Alone => {
            let places = named_rules(alloc, page.policy(), question)?;
            put_at(page.policy(), &places, package_place, out);
        }
        Detail::Listed => {}
    }
    Ok(())
}

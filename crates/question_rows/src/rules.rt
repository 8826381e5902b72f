//! The rules that the conditions of questions name.

ghost use Rattle.std.specs.Prelude.{◌≡◌, OnOk, OnErr};
ghost use Rattle.hii_bytes.specs.Watching.{Puts, pen_of};
ghost use Rattle.ifr_nodes.specs.Nodes.{nodes_of};
ghost use Rattle.ifr_nodes.specs.code.Checked.{IsNodeOf};
ghost use Rattle.ifr_scopes.specs.code.Lists.{rule_node};
ghost use Rattle.hii_questions.specs.code.Views.{question_node};
ghost use Rattle.guard_policy.specs.code.Views.{bytes_of};
ghost use Rattle.question_audit.specs.code.Beginnings.{Begins};
ghost use Rattle.question_rows.specs.Conditions.{rule_part, rules_part};

use crate::buffers::words_text;
use crate::referring::put_linked_code;
use form_page::Page;
use guard_policy::Conditions;
use hii_bytes::Watched;
use hii_questions::Question;
use ifr_scopes::RuleView;
use question_audit::{has_place, id_of_rule, named_rules};
use std::alloc::{AllocError, Global};
use std::io::Write;

// Writes a rule. Where an allocation fails nothing is written.
fn put_rule<'a, C: Conditions, W: Write>(
    alloc: Global,
    page: Page<'a, '_, C>,
    rule: RuleView<'a>,
    out: &mut Watched<W>,
) -> Result<(), AllocError>
    requires { IsNodeOf (bytes_of page.policy) (rule_node rule) }
    ensures told { OnOk result (Puts W.contents out.old out.new
        (rule_part (nodes_of (bytes_of page.entry.policy)) (rule_node rule.entry))) }
    ensures nothing { OnErr result (out.new ≡ out.old) }
{
    let words = words_text(alloc, rule.expression())?;
    let id = id_of_rule(page.policy().forms(), rule);
    out.put(b"<p class=\"small dim\">");
    out.put(b"rule ");
    out.put_decimal(u64::from(id));
    out.put(b": ");
    put_linked_code(page, &words, out);
    out.put(b"</p>");
    Ok(())
}

/// Writes the rules that the conditions of a question name, and those that these name in turn, by place. Where an allocation fails, the
/// beginning of these may be written.
pub(crate) fn put_rules<'a, C: Conditions, W: Write>(
    alloc: Global,
    page: Page<'a, '_, C>,
    question: Question<'a>,
    out: &mut Watched<W>,
) -> Result<(), AllocError>
    requires { IsNodeOf (bytes_of page.policy) (question_node question) }
    ensures told { OnOk result (Puts W.contents out.old out.new
        (rules_part (nodes_of (bytes_of page.entry.policy)) (question_node question.entry))) }
    ensures begun { OnErr result (Begins (pen_of W.contents out.old) (pen_of W.contents out.new)
        (rules_part (nodes_of (bytes_of page.entry.policy)) (question_node question.entry))) }
{
    let places = named_rules(alloc, page.policy(), question)?;
    let mut rules = page.policy().forms().rules();
    while let Some(rule) = rules.next() {
        if has_place(&places, rule.place()) {
            put_rule(alloc, page, rule, out)?;
        }
    }
    Ok(())
}

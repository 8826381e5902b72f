//! The checks of questions.

ghost use Rattle.std.specs.Prelude.{◌≡◌, OnOk, OnErr};
ghost use Rattle.hii_bytes.specs.Watching.{Puts, pen_of};
ghost use Rattle.ifr_nodes.specs.code.Checked.{IsNodeOf};
ghost use Rattle.ifr_scopes.specs.code.Parts.{condition_node};
ghost use Rattle.hii_questions.specs.code.Views.{question_node};
ghost use Rattle.guard_policy.specs.code.RuleValues.{AreRuleValues};
ghost use Rattle.guard_policy.specs.code.Views.{bytes_of};
ghost use Rattle.question_audit.specs.code.Pages.{audited};
ghost use Rattle.question_audit.specs.ConditionFacts.{condition_words};
ghost use Rattle.question_audit.specs.code.Beginnings.{Begins};
ghost use Rattle.question_rows.specs.Conditions.{check_part, check_start, check_words, checks_part};

use crate::buffers::words_text;
use crate::guards::{is_in_force, put_stated};
use audit_html::put_isolated_shown;
use audit_text::opcode_name;
use form_page::Page;
use guard_policy::Conditions;
use hii_bytes::Watched;
use hii_questions::Question;
use ifr_expr::RuleValues;
use ifr_scopes::{AnyCondition, ConditionView};
use question_audit::{code_of, rule_values, state_by};
use std::alloc::{AllocError, Global};
use std::io::Write;

// Writes a check that stands in this way, and that these words say.
fn put_check_words<'a, C: Conditions, W: Write>(
    page: Page<'a, '_, C>,
    check: ConditionView<'a>,
    state: &[u8],
    words: &[u8],
    out: &mut Watched<W>,
)
    ensures { words.now ≡ condition_words (condition_node check.entry)
        → Puts W.contents out.old out.new
        (check_words (audited page.entry) (condition_node check.entry) state.now) }
{
    out.put(opcode_name(code_of(check.op())));
    put_stated(page, state, words, out);
    out.put(b" ");
    put_isolated_shown(page.text(check.op().message()).chars(), out);
}

// Writes the start of a check that stands in this way.
fn put_check_start<W: Write>(state: &[u8], out: &mut Watched<W>)
    ensures { Puts W.contents out.old out.new (check_start state.now) }
{
    out.put(if is_in_force(state) {
        b"<p class=\"small\">"
    } else {
        b"<p class=\"small dim\">"
    });
}

// Writes a check, by values of rules over the stores of the page. Where an allocation fails nothing is written.
fn put_check<'a, C: Conditions, W: Write>(
    alloc: Global,
    page: Page<'a, '_, C>,
    check: ConditionView<'a>,
    rules: &mut RuleValues,
    out: &mut Watched<W>,
) -> Result<(), AllocError>
    requires { AreRuleValues (bytes_of page.policy) page.stores.now rules.old }
    ensures kept { OnOk result (AreRuleValues (bytes_of page.entry.policy) page.entry.stores.now rules.new) }
    ensures told { OnOk result (Puts W.contents out.old out.new
        (check_part (audited page.entry) (condition_node check.entry))) }
    ensures nothing { OnErr result (out.new ≡ out.old) }
{
    let words = words_text(alloc, check.condition())?;
    let state = state_by(page, AnyCondition::Question(check), rules);
    put_check_start(state, out);
    put_check_words(page, check, state, &words, out);
    out.put(b"</p>");
    Ok(())
}

/// Writes the checks in the scope of a question, by place. Where an allocation fails, the beginning of these may be written.
pub(crate) fn put_checks<'a, C: Conditions, W: Write>(
    alloc: Global,
    page: Page<'a, '_, C>,
    question: Question<'a>,
    out: &mut Watched<W>,
) -> Result<(), AllocError>
    requires { IsNodeOf (bytes_of page.policy) (question_node question) }
    ensures told { OnOk result (Puts W.contents out.old out.new
        (checks_part (audited page.entry) (question_node question.entry))) }
    ensures begun { OnErr result (Begins (pen_of W.contents out.old) (pen_of W.contents out.new)
        (checks_part (audited page.entry) (question_node question.entry))) }
{
    let forms = page.policy().forms();
    let mut rules = rule_values(alloc, forms)?;
    let mut checks = forms.conditions_in(question.statement());
    while let Some(check) = checks.next() {
        put_check(alloc, page, check, &mut rules, out)?;
    }
    Ok(())
}

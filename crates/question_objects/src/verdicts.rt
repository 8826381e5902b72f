//! Whether a question may be changed.

ghost use Rattle.std.specs.Prelude.{◌≡◌, Option};
ghost use Rattle.hii_bytes.specs.Watching.{Puts};
ghost use Rattle.ifr_nodes.specs.Nodes.{nodes_of};
ghost use Rattle.ifr_nodes.specs.code.Checked.{IsNodeOf};
ghost use Rattle.ifr_scopes.specs.code.Lists.{statement_node};
ghost use Rattle.hii_questions.specs.code.Views.{question_node, question_view};
ghost use Rattle.guard_policy.specs.Policy.{fixed};
ghost use Rattle.guard_policy.specs.code.Answers.{unless};
ghost use Rattle.guard_policy.specs.code.Views.{bytes_of};
ghost use Rattle.guard_policy.specs.declared.denial.Denial.{Denial as Denied};
ghost use Rattle.form_page.specs.code.PageViews.{world_of};
ghost use Rattle.question_audit.specs.code.GuardTables.{TellsGuards};
ghost use Rattle.question_audit.specs.code.Pages.{audited};
ghost use Rattle.audit_json.specs.Objects.{before_item};
ghost use Rattle.question_audit.specs.Reasons.{all_reasons};
ghost use Rattle.question_objects.specs.Verdicts.{all_verdict_members, also_member, reason_object, undefined_member, verdict_members};

use crate::members::{put_denial, put_where};
use audit_json::{put_array_end, put_before_item, put_first_member, put_number, put_word};
use form_page::Page;
use guard_policy::{Conditions, Denial};
use hii_bytes::Watched;
use hii_questions::Question;
use ifr_scopes::Statement;
use question_audit::{GuardTable, Reasons, flag_of, is_constant};
use std::io::Write;

// Writes a verdict.
fn put_verdict<W: Write>(verdict: Result<(), Denial>, out: &mut Watched<W>)
    ensures { (denied : Option Denied) → verdict ≡ unless denied
        → Puts W.contents out.old out.new (verdict_members denied) }
{
    match verdict {
        Ok(()) => put_word(b"verdict", b"open", out),
        Err(denial) => put_denial(b"verdict", b"decider", denial, out),
    }
}

// Writes a reason.
fn put_reason<W: Write>(denial: Denial, out: &mut Watched<W>)
    ensures { Puts W.contents out.old out.new (reason_object denial) }
{
    out.put(b"{");
    put_first_member(b"kind", out);
    out.put(b"\"");
    out.put(denial.kind.name().as_bytes());
    out.put(b"\"");
    put_number(b"at", u64::from(denial.place), out);
    out.put(b"}");
}

// Writes all reasons but for the first, which the verdict tells.
fn put_also<'a, C: Conditions, W: Write>(
    page: Page<'a, '_, C>,
    question: Question<'a>,
    out: &mut Watched<W>,
)
    requires { IsNodeOf (bytes_of page.policy) (question_node question) }
    ensures { Puts W.contents out.old out.new
        (also_member (all_reasons (world_of page.entry) (question_view question.entry))) }
{
    let mut reasons = Reasons::of(page, question);
    if reasons.next().is_none() {
        return;
    }
    let mut is_first = true;
    while let Some(denial) = reasons.next() {
        put_before_item(b"also", is_first, out);
        put_reason(denial, out);
        is_first = false;
    }
    put_array_end(is_first, out);
}

// Writes the places of the guards around a statement whose conditions are undefined.
fn put_undefined<'a, C: Conditions, W: Write>(
    page: Page<'a, '_, C>,
    table: &GuardTable,
    statement: Statement<'a>,
    out: &mut Watched<W>,
)
    requires node { IsNodeOf (bytes_of page.policy) (statement_node statement) }
    requires told { TellsGuards (audited page) table.now }
    ensures { Puts W.contents out.old out.new
        (undefined_member (audited page.entry) (statement_node statement.entry)) }
{
    let mut guards = page.policy().forms().guards_at(statement.place());
    let mut is_first = true;
    while let Some(guard) = guards.step() {
        if !flag_of(&table.undefined, guard) {
            continue;
        }
        put_before_item(b"undefined", is_first, out);
        out.put_decimal(u64::from(guard.place()));
        is_first = false;
    }
    put_array_end(is_first, out);
}

/// Writes whether a question may be changed, and why not.
pub(crate) fn put_verdicts<'a, C: Conditions, W: Write>(
    page: Page<'a, '_, C>,
    table: &GuardTable,
    question: Question<'a>,
    verdict: Result<(), Denial>,
    out: &mut Watched<W>,
)
    requires node { IsNodeOf (bytes_of page.policy) (question_node question) }
    requires told { TellsGuards (audited page) table.now }
    requires verdict { verdict ≡ unless (fixed (world_of page) (question_node question)) }
    ensures { Puts W.contents out.old out.new
        (all_verdict_members (audited page.entry) (question_view question.entry)) }
{
    let statement = question.statement();
    put_verdict(verdict, out);
    put_where(
        is_constant(page, table, statement, verdict),
        b"constant",
        out,
    );
    put_also(page, question, out);
    put_undefined(page, table, statement, out);
}

//! Which questions depend on other ones where it is asked whether they may be changed.

ghost use Rattle.std.specs.Prelude.{◌≡◌, ◌&&◌, ℕ, Bool, IfSome, OnOk, OnErr, codes, length, map};
ghost use Rattle.hii_bytes.specs.Watching.{Puts};
ghost use Rattle.ifr_opcodes.specs.Fields.{question_id};
ghost use Rattle.ifr_nodes.specs.Guards.{guards_among};
ghost use Rattle.ifr_nodes.specs.Nodes.{nodes_of};
ghost use Rattle.hii_questions.specs.code.Views.{question_node, question_view};
ghost use Rattle.guard_policy.specs.code.Views.{bytes_of};
ghost use Rattle.question_audit.specs.code.Pages.{audited};
ghost use Rattle.question_audit.specs.Dependences.{when_text};
ghost use Rattle.question_audit.specs.code.Naming.{naming};
ghost use Rattle.question_rows.specs.Dependences.{decided_item, decided_items, decides_part};
ghost use Rattle.question_rows.specs.Elements.{has_none, run};
ghost use Rattle.question_rows.specs.code.Deciding.{TellsDecisions};
ghost use Rattle.question_rows.specs.declared.decisions.Decision.{Decision};

use crate::decisions::{Decision, Decisions, decisions_by};
use crate::elements::{put_before_item, put_end};
use crate::links::put_question_link;
use form_page::Page;
use guard_policy::Conditions;
use hii_bytes::Watched;
use hii_questions::Question;
use question_audit::{When, guards_naming, is_decided};
use std::alloc::{AllocError, Global};
use std::io::Write;

// What stands behind a question that is decided then.
fn behind(when: When) -> &'static [u8]
    ensures { result.now ≡ when_text when }
{
    match when {
        When::AtCommands => b"",
        When::AtOpening => b" (at opening)",
    }
}

// Writes a question that is decided then.
fn put_item<'a, C: Conditions, W: Write>(
    page: Page<'a, '_, C>,
    question: Question<'a>,
    when: When,
    out: &mut Watched<W>,
)
    ensures { Puts W.contents out.old out.new
        (decided_item when (audited page.entry) (question_view question.entry)) }
{
    put_question_link(page, question, out);
    out.put(behind(when));
}

// Writes the questions of which it depends then whether they may be changed, by place, where these are the guards whose conditions name
// the question that decides. Tells whether the next one is the first.
fn put_decided<'a, C: Conditions, W: Write>(
    page: Page<'a, '_, C>,
    flags: &[bool],
    when: When,
    is_first: bool,
    out: &mut Watched<W>,
) -> bool
    requires { length flags.now ≡ length (guards_among (nodes_of (bytes_of page.policy))) }
    ensures text { (id : ℕ) → flags.now ≡ naming (nodes_of (bytes_of page.entry.policy)) id
        → Puts W.contents out.old out.new
        (run (codes "<p class=\"small\">decides ") (codes ", ") is_first (decided_items when (audited page.entry) id)) }
    ensures first { (id : ℕ) → flags.now ≡ naming (nodes_of (bytes_of page.entry.policy)) id
        → result ≡ (is_first && has_none (decided_items when (audited page.entry) id)) }
{
    let policy = page.policy();
    let mut questions = page.questions().all();
    let mut is_next_first = is_first;
    while let Some(other) = questions.next() {
        if is_decided(policy, flags, other, when) {
            put_before_item(b"<p class=\"small\">decides ", b", ", is_next_first, out);
            put_item(page, other, when, out);
            is_next_first = false;
        }
    }
    is_next_first
}

// Writes these, where they are kept as the decisions of the id of the question. Tells whether the next one is the first.
fn put_kept<'a, C: Conditions, W: Write>(
    page: Page<'a, '_, C>,
    decisions: &[Decision<'a>],
    when: When,
    is_first: bool,
    out: &mut Watched<W>,
) -> bool
    ensures text { Puts W.contents out.old out.new
        (run (codes "<p class=\"small\">decides ") (codes ", ") is_first
        (map (λ (d : Decision). decided_item when (audited page.entry) (question_view d.on)) decisions.now)) }
    ensures first { result ≡ (is_first && has_none
        (map (λ (d : Decision). decided_item when (audited page.entry) (question_view d.on)) decisions.now)) }
{
    let mut is_next_first = is_first;
    for decision in decisions {
        put_before_item(b"<p class=\"small\">decides ", b", ", is_next_first, out);
        put_item(page, decision.on, when, out);
        is_next_first = false;
    }
    is_next_first
}

// Writes the questions whose changing depends on the answer to the question of an id, by place: those at commands, then those at opening.
fn put_kept_decides<'a, C: Conditions, W: Write>(
    page: Page<'a, '_, C>,
    decisions: &Decisions<'a>,
    id: u16,
    out: &mut Watched<W>,
)
    requires { TellsDecisions (nodes_of (bytes_of page.policy)) decisions.now }
    ensures { Puts W.contents out.old out.new (decides_part (audited page.entry) id) }
{
    let at_commands = decisions_by(&decisions.at_commands, id);
    let is_first = put_kept(page, at_commands, When::AtCommands, true, out);
    let at_opening = decisions_by(&decisions.at_opening, id);
    let is_none = put_kept(page, at_opening, When::AtOpening, is_first, out);
    put_end(b"</p>", is_none, out);
}

// The same, where nothing is kept. Where an allocation fails nothing is written.
fn put_asked_decides<'a, C: Conditions, W: Write>(
    alloc: Global,
    page: Page<'a, '_, C>,
    question: Question<'a>,
    out: &mut Watched<W>,
) -> Result<(), AllocError>
    ensures told { OnOk result (Puts W.contents out.old out.new
        (decides_part (audited page.entry) (question_id (question_node question.entry).op))) }
    ensures nothing { OnErr result (out.new ≡ out.old) }
{
    let flags = guards_naming(alloc, page.policy().forms(), question.id())?;
    let is_first = put_decided(page, &flags, When::AtCommands, true, out);
    let is_none = put_decided(page, &flags, When::AtOpening, is_first, out);
    put_end(b"</p>", is_none, out);
    Ok(())
}

/// Writes the questions whose changing depends on the answer to a question, by place: those at commands, then those at opening. Where an
/// allocation fails nothing is written.
pub(crate) fn put_decides<'a, C: Conditions, W: Write>(
    alloc: Global,
    page: Page<'a, '_, C>,
    decisions: Option<&Decisions<'a>>,
    question: Question<'a>,
    out: &mut Watched<W>,
) -> Result<(), AllocError>
    requires { IfSome decisions (λ kept. TellsDecisions (nodes_of (bytes_of page.policy)) kept.now) }
    ensures told { OnOk result (Puts W.contents out.old out.new
        (decides_part (audited page.entry) (question_id (question_node question.entry).op))) }
    ensures nothing { OnErr result (out.new ≡ out.old) }
{
    match decisions {
        Some(kept) => {
            put_kept_decides(page, kept, question.id(), out);
            Ok(())
        }
        None => put_asked_decides(alloc, page, question, out),
    }
}

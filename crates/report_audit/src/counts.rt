//! How many questions of a form set may be changed, and how many not, by what forbids it.

ghost use Rattle.std.specs.Prelude.{◌≡◌, Option, filter, length};
ghost use Rattle.hii_bytes.specs.Watching.{Puts};
ghost use Rattle.ifr_nodes.specs.Nodes.{nodes_of};
ghost use Rattle.ifr_nodes.specs.code.Checked.{IsNodeOf};
ghost use Rattle.hii_questions.specs.Fields.{asked, questions};
ghost use Rattle.hii_questions.specs.code.Views.{question_node, question_view};
ghost use Rattle.guard_policy.specs.code.Answers.{unless};
ghost use Rattle.guard_policy.specs.code.Views.{bytes_of};
ghost use Rattle.guard_policy.specs.declared.denial.Denial.{Denial as Denied};
ghost use Rattle.form_page.specs.code.PageViews.{world_of};
ghost use Rattle.question_rows.specs.States.{standing_of};
ghost use Rattle.report_audit.specs.Counts as spec;

use form_page::Page;
use guard_policy::{Conditions, Denial};
use hii_bytes::Watched;
use hii_questions::{DenialKind, Question};
use question_rows::{standing_class, standing_word};
use std::io::Write;

// How questions stand, in the order in which they are counted.
static STANDINGS: [Option<DenialKind>; 7] = [
    None,
    Some(DenialKind::GrayOutIf),
    Some(DenialKind::SuppressIf),
    Some(DenialKind::DisableIf),
    Some(DenialKind::Locked),
    Some(DenialKind::ReadOnly),
    Some(DenialKind::Outside),
];

// How a question of a verdict stands.
fn standing_of(verdict: Result<(), Denial>) -> Option<DenialKind>
    ensures { (denied : Option Denied) → verdict ≡ unless denied → result ≡ standing_of denied }
{
    match verdict {
        Ok(()) => None,
        Err(denial) => Some(denial.kind),
    }
}

// Whether a question stands so over the stores of the page.
fn stands_so<'a, C: Conditions>(
    page: Page<'a, '_, C>,
    question: Question<'a>,
    standing: Option<DenialKind>,
) -> bool
    requires node { IsNodeOf (bytes_of page.policy) (question_node question) }
    requires asked { question_view question
        ≡ asked (nodes_of (bytes_of page.policy)) (question_node question) }
    ensures { result ≡ spec.stands_so (world_of page.entry) standing (question_view question.entry) }
{
    let verdict = page
        .policy()
        .question_changeable_by(question, page.conditions());
    standing_class(standing_of(verdict)) == standing_class(standing)
}

// How many questions of a form set stand so.
fn count_of<'a, C: Conditions>(page: Page<'a, '_, C>, standing: Option<DenialKind>) -> usize
    ensures { result ≡ length (filter (spec.stands_so (world_of page.entry) standing)
        (questions (nodes_of (bytes_of page.entry.policy)))) }
{
    let mut count = 0;
    let mut left = page.questions().all();
    while let Some(question) = left.next() {
        if stands_so(page, question, standing) {
            count += 1;
        }
    }
    count
}

// Writes how many questions stand so, where one does.
fn put_count<W: Write>(standing: Option<DenialKind>, count: usize, out: &mut Watched<W>)
    ensures { Puts W.contents out.old out.new (spec.count_item standing count) }
{
    if count == 0 {
        return;
    }
    out.put(b"<li><span class=\"badge ");
    out.put(standing_class(standing).as_bytes());
    out.put(b"\">");
    out.put_decimal(count as u64);
    out.put(b" ");
    out.put(standing_word(standing).as_bytes());
    out.put(b"</span>");
}

/// Writes how many questions of the form set of a page stand so, over the stores of the page.
pub(crate) fn put_counts<'a, C: Conditions, W: Write>(page: Page<'a, '_, C>, out: &mut Watched<W>)
    ensures { Puts W.contents out.old out.new (spec.counts_list (world_of page.entry)) }
{
    out.put(b"<ul class=\"counts\">");
    for standing in STANDINGS.as_slice() {
        put_count(*standing, count_of(page, *standing), out);
    }
    out.put(b"</ul>\n");
}

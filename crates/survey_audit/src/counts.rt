//! How many questions of a form set may be changed.

ghost use Rattle.std.specs.Prelude.{◌≡◌, filter, length};
ghost use Rattle.hii_bytes.specs.Watching.{Puts};
ghost use Rattle.ifr_nodes.specs.Accepted.{IsAccepted};
ghost use Rattle.ifr_nodes.specs.Nodes.{is_form, nodes_of};
ghost use Rattle.ifr_nodes.specs.code.Checked.{IsNodeOf};
ghost use Rattle.hii_questions.specs.Fields.{questions as questions_of};
ghost use Rattle.hii_questions.specs.code.Views.{question_node};
ghost use Rattle.guard_policy.specs.Policy.{fixed};
ghost use Rattle.guard_policy.specs.code.Answers.{unless};
ghost use Rattle.guard_policy.specs.code.Views.{bytes_of};
ghost use Rattle.form_page.specs.code.PageViews.{world_of};
ghost use Rattle.question_audit.specs.code.GuardTables.{TellsGuards};
ghost use Rattle.question_audit.specs.code.Pages.{audited};
ghost use Rattle.survey_audit.specs.Counts as spec;
ghost use Rattle.survey_audit.specs.Lines.{counts_line, counts_members, counts_object, counts_told, counts_words};
ghost use Rattle.survey_audit.specs.code.Headings.{heading_of};

use crate::heading::{Heading, put_head, put_head_members};
use crate::standing::Standing;
use crate::tally::{Tally, put_tally_members, put_tally_words};
use audit_json::{Telling, end_object, put_kind, put_number};
use form_page::Page;
use guard_policy::{Conditions, Denial};
use hii_bytes::Watched;
use hii_questions::Question;
use ifr_scopes::Forms;
use question_audit::{GuardTable, is_constant};
use std::io::Write;

/// How many forms and questions a form set has, and how many of the questions stand so (own rule).
#[derive(Clone, Copy)]
pub struct Counts {
    pub forms: usize,
    pub questions: usize,
    pub tally: Tally,
}

/// How many there are of the form set of a page, over the stores of the page.
pub(crate) fn counts_of<'a, C: Conditions>(page: Page<'a, '_, C>, guards: &GuardTable) -> Counts
    requires told { TellsGuards (audited page) guards.now }
    ensures { result ≡ spec.counts_of (world_of page.entry) }
{
    Counts {
        forms: forms_count(page.policy().forms()),
        questions: page.questions().count(),
        tally: tally_of(page, guards),
    }
}

// How many forms a form set has.
fn forms_count(forms: &Forms<'_>) -> usize
    requires { IsAccepted forms.now }
    ensures { result ≡ length (filter is_form (nodes_of forms.now)) }
{
    let views = forms.forms();
    views.count()
}

// How many questions of the form set of a page stand so.
fn tally_of<'a, C: Conditions>(page: Page<'a, '_, C>, guards: &GuardTable) -> Tally
    requires { TellsGuards (audited page) guards.now }
    ensures { result
        ≡ spec.tally_of (world_of page.entry) (questions_of (nodes_of (bytes_of page.entry.policy))) }
{
    let mut tally = Tally::none();
    let mut left = page.questions().all();
    while let Some(question) = left.next() {
        let verdict = page
            .policy()
            .question_changeable_by(question, page.conditions());
        let standing = Standing::of(verdict);
        let is_settled = is_for_good(page, guards, question, verdict, standing);
        tally = tally.with(standing, is_settled);
    }
    tally
}

// Whether a guard forbids for good that a question is changed, where this is decided on it.
fn is_for_good<'a, C: Conditions>(
    page: Page<'a, '_, C>,
    guards: &GuardTable,
    question: Question<'a>,
    verdict: Result<(), Denial>,
    standing: Standing,
) -> bool
    requires node { IsNodeOf (bytes_of page.policy) (question_node question) }
    requires told { TellsGuards (audited page) guards.now }
    requires verdict { verdict ≡ unless (fixed (world_of page) (question_node question)) }
    requires standing { standing ≡ spec.standing (world_of page) (question_node question) }
    ensures { result ≡ spec.is_for_good (world_of page.entry) (question_node question.entry) }
{
    if standing.is_guarded() {
        return is_constant(page, guards, question.statement(), verdict);
    }
    false
}

/// Tells how many questions of a form set stand so.
pub(crate) fn put_counts<W: Write>(heading: Heading<'_, '_>, counts: Counts, out: &mut Watched<W>)
    ensures { Puts W.contents out.old out.new (counts_told (heading_of heading.entry) counts) }
{
    match heading.telling {
        Telling::Lines => put_line(heading, counts, out),
        Telling::Objects => put_object(heading, counts, out),
    }
}

// Writes the line.
fn put_line<W: Write>(heading: Heading<'_, '_>, counts: Counts, out: &mut Watched<W>)
    ensures { Puts W.contents out.old out.new (counts_line (heading_of heading.entry) counts) }
{
    put_head(heading, out);
    put_words(counts, out);
    out.put(b"\n");
}

// Writes the words of the line.
fn put_words<W: Write>(counts: Counts, out: &mut Watched<W>)
    ensures { Puts W.contents out.old out.new (counts_words counts) }
{
    out.put(b"forms ");
    out.put_decimal(counts.forms as u64);
    out.put(b", questions ");
    out.put_decimal(counts.questions as u64);
    out.put(b", ");
    put_tally_words(counts.tally, out);
}

// Writes the object.
fn put_object<W: Write>(heading: Heading<'_, '_>, counts: Counts, out: &mut Watched<W>)
    ensures { Puts W.contents out.old out.new (counts_object (heading_of heading.entry) counts) }
{
    put_kind(b"set", out);
    put_head_members(heading, out);
    put_members(counts, out);
    end_object(out);
}

// Writes the members of the object.
fn put_members<W: Write>(counts: Counts, out: &mut Watched<W>)
    ensures { Puts W.contents out.old out.new (counts_members counts) }
{
    put_number(b"forms", counts.forms as u64, out);
    put_number(b"questions", counts.questions as u64, out);
    put_tally_members(counts.tally, out);
}

//! Questions that are found, as `questions` tells them.

ghost use Rattle.std.specs.Prelude.{◌≡◌, ◌+◌, ◌<◌, ◌^◌, OnOk, OnErr, IfErr, filter, length};
ghost use Rattle.std.specs.List.{flat_map};
ghost use Rattle.std.specs.BTreeMap.{get};
ghost use Rattle.std.specs.Ordering.{nat_cmp};
ghost use Rattle.hii_bytes.specs.Watching.{Puts, pen_of};
ghost use Rattle.ifr_nodes.specs.Nodes.{is_form, nodes_of};
ghost use Rattle.ifr_nodes.specs.code.Checked.{IsNodeOf};
ghost use Rattle.ifr_scopes.specs.code.Lists.{form_node};
ghost use Rattle.hii_questions.specs.Fields.{asked, questions};
ghost use Rattle.hii_questions.specs.code.LyingIn.{LieIn, LiesIn};
ghost use Rattle.hii_questions.specs.code.Views.{question_node, question_view};
ghost use Rattle.hii_varstore.specs.Stores.{shape_of};
ghost use Rattle.guard_policy.specs.code.Views.{bytes_of};
ghost use Rattle.question_audit.specs.code.Looking.{TellsTables};
ghost use Rattle.question_audit.specs.code.Pages.{audited};
ghost use Rattle.question_audit.specs.code.Beginnings.{Begins};
ghost use Rattle.question_objects.specs.code.Knowing.{IsKnown};
ghost use Rattle.survey_audit.specs.Opened.{all_found_told, form_found_told, found_line, found_object, found_told};
ghost use Rattle.survey_audit.specs.code.Headings.{heading_of};

use crate::finding::is_found;
use crate::heading::{Heading, put_numbers, put_numbers_members};
use audit_json::{Telling, end_object, put_kind};
use form_page::Page;
use guard_policy::Conditions;
use hii_bytes::Watched;
use hii_questions::Question;
use hii_varstore::Stores;
use ifr_scopes::Form;
use question_audit::{Tables, put_question};
use question_objects::{Known, put_listed_members};
use std::alloc::{AllocError, Global};
use std::io::Write;

/// What questions that are found are told by.
#[derive(Clone, Copy)]
pub(crate) struct Looking<'t, 'a> {
    /// What lines look up.
    pub tables: &'t Tables<'a>,
    /// What objects look up.
    pub known: Known<'t, 'a>,
}

// Writes the line of a question behind the numbers. `spare` are stores that hold the same as those of the page, before and after.
fn put_line<'a, C: Conditions, W: Write>(
    heading: Heading<'_, 'a>,
    page: Page<'a, '_, C>,
    tables: &Tables<'a>,
    question: Question<'a>,
    spare: &mut Stores,
    out: &mut Watched<W>,
)
    requires node { IsNodeOf (bytes_of page.policy) (question_node question) }
    requires asked { question_view question
        ≡ asked (nodes_of (bytes_of page.policy)) (question_node question) }
    requires lies { LiesIn (shape_of page.stores.now) (question_view question) }
    requires told { TellsTables (audited page) (bytes_of page.policy) tables.now }
    requires same { spare.old ≡ page.stores.now }
    ensures same { spare.new ≡ page.entry.stores.now }
    ensures text { Puts W.contents out.old out.new
        (found_line (heading_of heading.entry) (audited page.entry) (question_node question.entry)) }
{
    put_numbers(heading, out);
    put_question(page, tables, question, spare, out);
}

// Writes the object of a question of a form. `spare` are stores that hold the same as those of the page, before and after. Where an
// allocation fails, the beginning of the object may be written.
fn put_object<'a, C: Conditions, W: Write>(
    alloc: Global,
    heading: Heading<'_, 'a>,
    page: Page<'a, '_, C>,
    known: Known<'_, 'a>,
    form: Form<'a>,
    question: Question<'a>,
    spare: &mut Stores,
    out: &mut Watched<W>,
) -> Result<(), AllocError>
    requires node { IsNodeOf (bytes_of page.policy) (question_node question) }
    requires asked { question_view question
        ≡ asked (nodes_of (bytes_of page.policy)) (question_node question) }
    requires lies { LiesIn (shape_of page.stores.now) (question_view question) }
    requires known { IsKnown (audited page) (bytes_of page.policy) known }
    requires in_file { heading.base + length (bytes_of page.policy) < 2 ^ 64 }
    requires same { spare.old ≡ page.stores.now }
    ensures same { spare.new ≡ page.entry.stores.now }
    ensures told { OnOk result (Puts W.contents out.old out.new
        (found_object (heading_of heading.entry) (audited page.entry) (form_node form.entry) (question_node question.entry))) }
    ensures begun { OnErr result (Begins (pen_of W.contents out.old) (pen_of W.contents out.new)
        (found_object (heading_of heading.entry) (audited page.entry) (form_node form.entry) (question_node question.entry))) }
{
    put_kind(b"question", out);
    put_numbers_members(heading, out);
    put_listed_members(alloc, page, known, heading.base, form, question, spare, out)?;
    end_object(out);
    Ok(())
}

// Tells a question of a form. `spare` are stores that hold the same as those of the page, before and after. Where an allocation fails,
// the beginning of what is told may be written.
fn put_told<'a, C: Conditions, W: Write>(
    alloc: Global,
    heading: Heading<'_, 'a>,
    page: Page<'a, '_, C>,
    looking: Looking<'_, 'a>,
    form: Form<'a>,
    question: Question<'a>,
    spare: &mut Stores,
    out: &mut Watched<W>,
) -> Result<(), AllocError>
    requires node { IsNodeOf (bytes_of page.policy) (question_node question) }
    requires asked { question_view question
        ≡ asked (nodes_of (bytes_of page.policy)) (question_node question) }
    requires lies { LiesIn (shape_of page.stores.now) (question_view question) }
    requires tables { TellsTables (audited page) (bytes_of page.policy) looking.tables.now }
    requires known { IsKnown (audited page) (bytes_of page.policy) looking.known }
    requires in_file { heading.base + length (bytes_of page.policy) < 2 ^ 64 }
    requires same { spare.old ≡ page.stores.now }
    ensures same { spare.new ≡ page.entry.stores.now }
    ensures told { OnOk result (Puts W.contents out.old out.new
        (found_told (heading_of heading.entry) (audited page.entry) (form_node form.entry) (question_node question.entry))) }
    ensures begun { OnErr result (Begins (pen_of W.contents out.old) (pen_of W.contents out.new)
        (found_told (heading_of heading.entry) (audited page.entry) (form_node form.entry) (question_node question.entry))) }
{
    match heading.telling {
        Telling::Lines => {
            put_line(heading, page, looking.tables, question, spare, out);
            Ok(())
        }
        Telling::Objects => put_object(
            alloc,
            heading,
            page,
            looking.known,
            form,
            question,
            spare,
            out,
        ),
    }
}

// Tells the questions of a form that are found by small letters, by place. Where an allocation fails, the beginning of what is told may
// be written.
fn put_found_of<'a, C: Conditions, W: Write>(
    alloc: Global,
    heading: Heading<'_, 'a>,
    page: Page<'a, '_, C>,
    looking: Looking<'_, 'a>,
    letters: &[char],
    form: Form<'a>,
    spare: &mut Stores,
    out: &mut Watched<W>,
) -> Result<(), AllocError>
    requires node { IsNodeOf (bytes_of page.policy) (form_node form) }
    requires lie { LieIn (shape_of page.stores.now) (questions (nodes_of (bytes_of page.policy))) }
    requires tables { TellsTables (audited page) (bytes_of page.policy) looking.tables.now }
    requires known { IsKnown (audited page) (bytes_of page.policy) looking.known }
    requires in_file { heading.base + length (bytes_of page.policy) < 2 ^ 64 }
    requires same { spare.old ≡ page.stores.now }
    ensures same { OnOk result (spare.new ≡ page.entry.stores.now) }
    ensures told { OnOk result (Puts W.contents out.old out.new
        (form_found_told (heading_of heading.entry) (audited page.entry) letters.now (form_node form.entry))) }
    ensures begun { OnErr result (Begins (pen_of W.contents out.old) (pen_of W.contents out.new)
        (form_found_told (heading_of heading.entry) (audited page.entry) letters.now (form_node form.entry))) }
{
    let mut statements = page.policy().forms().statements_of(form);
    while let Some(statement) = statements.next() {
        if let Some(question) = page.policy().question(statement) {
            if is_found(alloc, page, question, letters)? {
                put_told(alloc, heading, page, looking, form, question, spare, out)?;
            }
        }
    }
    Ok(())
}

/// Tells the questions of all forms that are found by small letters, by place. Where an allocation fails, the beginning of what is told
/// may be written.
pub(crate) fn put_found<'a, C: Conditions, W: Write>(
    alloc: Global,
    heading: Heading<'_, 'a>,
    page: Page<'a, '_, C>,
    looking: Looking<'_, 'a>,
    letters: &[char],
    spare: &mut Stores,
    out: &mut Watched<W>,
) -> Result<(), AllocError>
    requires lie { LieIn (shape_of page.stores.now) (questions (nodes_of (bytes_of page.policy))) }
    requires tables { TellsTables (audited page) (bytes_of page.policy) looking.tables.now }
    requires known { IsKnown (audited page) (bytes_of page.policy) looking.known }
    requires in_file { heading.base + length (bytes_of page.policy) < 2 ^ 64 }
    requires same { spare.old ≡ page.stores.now }
    ensures told { OnOk result (Puts W.contents out.old out.new
        (all_found_told (heading_of heading.entry) (audited page.entry) letters.now)) }
    ensures begun { OnErr result (Begins (pen_of W.contents out.old) (pen_of W.contents out.new)
        (all_found_told (heading_of heading.entry) (audited page.entry) letters.now)) }
{
    let mut forms = page.policy().forms().forms();
    while let Some(form) = forms.next() {
        put_found_of(alloc, heading, page, looking, letters, form, spare, out)?;
    }
    Ok(())
}

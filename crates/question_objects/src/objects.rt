//! The object of one question.

ghost use Rattle.std.specs.Prelude.{◌≡◌, ◌+◌, ◌<◌, ◌^◌, ℕ, OnOk, OnErr, IfOk, IfErr, is_some, length, option_map};
ghost use Rattle.std.specs.BTreeMap.{get};
ghost use Rattle.std.specs.Ordering.{nat_cmp};
ghost use Rattle.hii_bytes.specs.Faults.{out_of_memory};
ghost use Rattle.hii_bytes.specs.Watching.{Puts, pen_of};
ghost use Rattle.ifr_nodes.specs.Nodes.{nodes_of};
ghost use Rattle.ifr_nodes.specs.code.Checked.{IsNodeOf};
ghost use Rattle.ifr_index.specs.code.LockIndex.{first_place};
ghost use Rattle.ifr_scopes.specs.code.Lists.{form_node};
ghost use Rattle.hii_questions.specs.Fields.{asked, questions};
ghost use Rattle.hii_questions.specs.code.LyingIn.{LiesIn, LieIn};
ghost use Rattle.hii_questions.specs.code.Views.{question_node, question_view};
ghost use Rattle.hii_varstore.specs.Stores.{shape_of};
ghost use Rattle.guard_policy.specs.Policy.{fixed};
ghost use Rattle.guard_policy.specs.code.Answers.{unless};
ghost use Rattle.guard_policy.specs.code.Views.{bytes_of};
ghost use Rattle.form_page.specs.code.PageViews.{world_of};
ghost use Rattle.question_audit.specs.code.Pages.{audited};
ghost use Rattle.question_audit.specs.code.Beginnings.{Begins};
ghost use Rattle.question_objects.specs.Conditions.{condition_lists};
ghost use Rattle.question_objects.specs.Dependences.{dependence_members};
ghost use Rattle.question_objects.specs.Objects.{BeginsQuestionObject, TellsQuestionObject, detail_members, lone_object, no_question_object, plain_members, question_members, question_object};
ghost use Rattle.question_objects.specs.code.Knowing.{IsKnown};
ghost use Rattle.question_objects.specs.declared.detail.Detail.TheVariants.{Alone};

use crate::checks::put_checks;
use crate::decided::put_decides;
use crate::depends::put_depends;
use crate::detail::Detail;
use crate::guards::put_guards;
use crate::heads::put_head;
use crate::limits::put_kind;
use crate::option_items::put_options;
use crate::rules::put_rules;
use crate::values::put_values;
use crate::verdicts::put_verdicts;
use audit_json::{end_object, put_kind as put_object_kind, put_member};
use form_page::Page;
use guard_policy::{Conditions, Denial};
use hii_bytes::{Fault, Watched};
use hii_questions::Question;
use hii_varstore::Stores;
use ifr_scopes::Form;
use question_audit::{GuardTable, Origin, StoreNames, When, form_of, scope_locks};
use std::alloc::{AllocError, Global};
use std::collections::BTreeMap;
use std::io::Write;

/// What objects look up of a form set, found once for all of them.
#[derive(Clone, Copy)]
pub struct Known<'t, 'a> {
    /// The stores.
    pub names: &'t StoreNames<'a>,
    /// What is known of each guard.
    pub guards: &'t GuardTable,
    /// The place of the first LOCKED directly in each scope.
    pub locks: &'t BTreeMap<u32, u32>,
}

/// How a question is told.
#[derive(Clone, Copy)]
pub(crate) struct Telling<'a> {
    pub detail: Detail,
    /// Where the forms package stands in the file, in bytes.
    pub package_place: u64,
    /// The form of the question.
    pub form: Option<Form<'a>>,
}

// Writes what is told of each question, where this is its verdict.
fn put_plain<'a, C: Conditions, W: Write>(
    page: Page<'a, '_, C>,
    known: Known<'_, 'a>,
    telling: Telling<'a>,
    question: Question<'a>,
    verdict: Result<(), Denial>,
    spare: &mut Stores,
    out: &mut Watched<W>,
)
    requires node { IsNodeOf (bytes_of page.policy) (question_node question) }
    requires asked { question_view question
        ≡ asked (nodes_of (bytes_of page.policy)) (question_node question) }
    requires lies { LiesIn (shape_of page.stores.now) (question_view question) }
    requires known { IsKnown (audited page) (bytes_of page.policy) known }
    requires in_file { telling.package_place + (question_node question).place < 2 ^ 64 }
    requires verdict { verdict ≡ unless (fixed (world_of page) (question_node question)) }
    requires same { spare.old ≡ page.stores.now }
    ensures same { spare.new ≡ page.entry.stores.now }
    ensures text { Puts W.contents out.old out.new
        (plain_members (audited page.entry) telling.entry.package_place
        (option_map form_node telling.entry.form) (question_view question.entry)) }
{
    put_head(
        page,
        known.names,
        telling.package_place,
        telling.form,
        question,
        out,
    );
    put_kind::<C, W>(question, out);
    put_values(page, question, spare, out);
    put_verdicts(page, known.guards, question, verdict, out);
}

// Writes the conditions around a question and in it, and the rules that they name, in this detail. Where an allocation fails, the
// beginning of these members may be written.
fn put_conditions<'a, C: Conditions, W: Write>(
    alloc: Global,
    page: Page<'a, '_, C>,
    detail: Detail,
    package_place: u64,
    question: Question<'a>,
    out: &mut Watched<W>,
) -> Result<(), AllocError>
    requires node { IsNodeOf (bytes_of page.policy) (question_node question) }
    requires in_file { package_place + length (bytes_of page.policy) < 2 ^ 64 }
    ensures told { OnOk result (Puts W.contents out.old out.new
        (condition_lists detail (audited page.entry) package_place (question_node question.entry))) }
    ensures begun { OnErr result (Begins (pen_of W.contents out.old) (pen_of W.contents out.new)
        (condition_lists detail (audited page.entry) package_place (question_node question.entry))) }
{
    put_guards(page, detail, package_place, question.statement(), out);
    put_checks(page, package_place, question, out);
    put_rules(alloc, page, detail, package_place, question, out)?;
    Ok(())
}

// Writes on which questions a question depends and which depend on it. Where an allocation fails, the beginning of these members may be
// written.
fn put_all_dependences<'a, C: Conditions, W: Write>(
    alloc: Global,
    page: Page<'a, '_, C>,
    question: Question<'a>,
    out: &mut Watched<W>,
) -> Result<(), AllocError>
    requires { IsNodeOf (bytes_of page.policy) (question_node question) }
    ensures told { OnOk result (Puts W.contents out.old out.new
        (dependence_members Alone (nodes_of (bytes_of page.entry.policy)) (question_node question.entry))) }
    ensures begun { OnErr result (Begins (pen_of W.contents out.old) (pen_of W.contents out.new)
        (dependence_members Alone (nodes_of (bytes_of page.entry.policy)) (question_node question.entry))) }
{
    let policy = page.policy();
    let statement = question.statement();
    put_depends(alloc, policy, statement, When::AtCommands, out)?;
    put_depends(alloc, policy, statement, When::AtOpening, out)?;
    put_decides(alloc, page, question, out)?;
    Ok(())
}

// Writes this of a question that is told alone. Where an allocation fails, the beginning of these members may be written.
fn put_dependences<'a, C: Conditions, W: Write>(
    alloc: Global,
    page: Page<'a, '_, C>,
    detail: Detail,
    question: Question<'a>,
    out: &mut Watched<W>,
) -> Result<(), AllocError>
    requires { IsNodeOf (bytes_of page.policy) (question_node question) }
    ensures told { OnOk result (Puts W.contents out.old out.new
        (dependence_members detail (nodes_of (bytes_of page.entry.policy)) (question_node question.entry))) }
    ensures begun { OnErr result (Begins (pen_of W.contents out.old) (pen_of W.contents out.new)
        (dependence_members detail (nodes_of (bytes_of page.entry.policy)) (question_node question.entry))) }
{
    match detail {
        Detail::Alone => put_all_dependences(alloc, page, question, out),
        Detail::Listed => Ok(()),
    }
}

// Writes what of a question depends on the detail, where this says whether it may not be changed. Where an allocation fails, the
// beginning of these members may be written.
fn put_details<'a, C: Conditions, W: Write>(
    alloc: Global,
    page: Page<'a, '_, C>,
    locks: &BTreeMap<u32, u32>,
    telling: Telling<'a>,
    question: Question<'a>,
    is_denied: bool,
    out: &mut Watched<W>,
) -> Result<(), AllocError>
    requires node { IsNodeOf (bytes_of page.policy) (question_node question) }
    requires locks { (scope : ℕ)
        → get nat_cmp locks.now scope ≡ first_place (nodes_of (bytes_of page.policy)) scope }
    requires denied { is_denied ≡ is_some (fixed (world_of page) (question_node question)) }
    requires in_file { telling.package_place + length (bytes_of page.policy) < 2 ^ 64 }
    ensures told { OnOk result (Puts W.contents out.old out.new
        (detail_members telling.entry.detail (audited page.entry) telling.entry.package_place (question_node question.entry))) }
    ensures begun { OnErr result (Begins (pen_of W.contents out.old) (pen_of W.contents out.new)
        (detail_members telling.entry.detail (audited page.entry) telling.entry.package_place (question_node question.entry))) }
{
    let detail = telling.detail;
    put_conditions(alloc, page, detail, telling.package_place, question, out)?;
    put_options(alloc, page, detail, locks, question, is_denied, out)?;
    put_dependences(alloc, page, detail, question, out)?;
    Ok(())
}

/// Writes what is known of a question as members of an object, behind its kind. `spare` are stores that hold the same as those of the
/// page, before and after. Where an allocation fails, the beginning of these members may be written.
pub(crate) fn put_members<'a, C: Conditions, W: Write>(
    alloc: Global,
    page: Page<'a, '_, C>,
    known: Known<'_, 'a>,
    telling: Telling<'a>,
    question: Question<'a>,
    spare: &mut Stores,
    out: &mut Watched<W>,
) -> Result<(), AllocError>
    requires node { IsNodeOf (bytes_of page.policy) (question_node question) }
    requires asked { question_view question
        ≡ asked (nodes_of (bytes_of page.policy)) (question_node question) }
    requires lies { LiesIn (shape_of page.stores.now) (question_view question) }
    requires known { IsKnown (audited page) (bytes_of page.policy) known }
    requires in_file { telling.package_place + length (bytes_of page.policy) < 2 ^ 64 }
    requires same { spare.old ≡ page.stores.now }
    ensures same { spare.new ≡ page.entry.stores.now }
    ensures told { OnOk result (Puts W.contents out.old out.new
        (question_members telling.entry.detail (audited page.entry) telling.entry.package_place
        (option_map form_node telling.entry.form) (question_view question.entry))) }
    ensures begun { OnErr result (Begins (pen_of W.contents out.old) (pen_of W.contents out.new)
        (question_members telling.entry.detail (audited page.entry) telling.entry.package_place
        (option_map form_node telling.entry.form) (question_view question.entry))) }
{
    let verdict = page
        .policy()
        .question_changeable_by(question, page.conditions());
    put_plain(page, known, telling, question, verdict, spare, out);
    put_details(
        alloc,
        page,
        known.locks,
        telling,
        question,
        verdict.is_err(),
        out,
    )
}

/// Writes what is known of a question as an object. `spare` are stores that hold the same as those of the page, before and after. Where
/// an allocation fails, the beginning of the object may be written.
pub(crate) fn put_object<'a, C: Conditions, W: Write>(
    alloc: Global,
    page: Page<'a, '_, C>,
    known: Known<'_, 'a>,
    telling: Telling<'a>,
    question: Question<'a>,
    spare: &mut Stores,
    out: &mut Watched<W>,
) -> Result<(), AllocError>
    requires node { IsNodeOf (bytes_of page.policy) (question_node question) }
    requires asked { question_view question
        ≡ asked (nodes_of (bytes_of page.policy)) (question_node question) }
    requires lies { LiesIn (shape_of page.stores.now) (question_view question) }
    requires known { IsKnown (audited page) (bytes_of page.policy) known }
    requires in_file { telling.package_place + length (bytes_of page.policy) < 2 ^ 64 }
    requires same { spare.old ≡ page.stores.now }
    ensures same { spare.new ≡ page.entry.stores.now }
    ensures told { OnOk result (Puts W.contents out.old out.new
        (question_object telling.entry.detail (audited page.entry) telling.entry.package_place
        (option_map form_node telling.entry.form) (question_view question.entry))) }
    ensures begun { OnErr result (Begins (pen_of W.contents out.old) (pen_of W.contents out.new)
        (question_object telling.entry.detail (audited page.entry) telling.entry.package_place
        (option_map form_node telling.entry.form) (question_view question.entry))) }
{
    put_object_kind(b"question", out);
    put_members(alloc, page, known, telling, question, spare, out)?;
    end_object(out);
    Ok(())
}

// Writes what is known of a question alone as an object. Where an allocation fails, the beginning of the object may be written.
fn put_lone<'a, C: Conditions, W: Write>(
    alloc: Global,
    page: Page<'a, '_, C>,
    origin: Origin,
    question: Question<'a>,
    out: &mut Watched<W>,
) -> Result<(), Fault>
    requires node { IsNodeOf (bytes_of page.policy) (question_node question) }
    requires asked { question_view question
        ≡ asked (nodes_of (bytes_of page.policy)) (question_node question) }
    requires lies { LiesIn (shape_of page.stores.now) (question_view question) }
    requires in_file { origin.place + length (bytes_of page.policy) < 2 ^ 64 }
    ensures told { OnOk result (Puts W.contents out.old out.new
        (lone_object (audited page.entry) origin (question_node question.entry))) }
    ensures begun { OnErr result (Begins (pen_of W.contents out.old) (pen_of W.contents out.new)
        (lone_object (audited page.entry) origin (question_node question.entry))) }
    ensures refused { IfErr result (λ fault. fault ≡ out_of_memory) }
{
    let forms = page.policy().forms();
    let names = StoreNames::read(alloc, forms)?;
    let guards = GuardTable::read(alloc, page)?;
    let locks = scope_locks(alloc, forms.bytes())?;
    let mut spare = page.stores().copy(alloc)?;
    let known = Known {
        names: &names,
        guards: &guards,
        locks: &locks,
    };
    let telling = Telling {
        detail: Detail::Alone,
        package_place: origin.place,
        form: form_of(page.policy(), question.statement()),
    };
    put_object(alloc, page, known, telling, question, &mut spare, out)?;
    Ok(())
}

/// Writes what is known of the question of an id in the form set of a page as an object of JSON on one line, over the stores of the
/// page, or an object that says that there is no such question; and tells whether there is one. The forms package stands at a place of
/// the file. Where an allocation fails, the beginning of the object may be written.
pub fn put_question_object<'a, C: Conditions, W: Write>(
    alloc: Global,
    page: Page<'a, '_, C>,
    origin: Origin,
    id: u16,
    out: &mut Watched<W>,
) -> Result<bool, Fault>
    requires lie { LieIn (shape_of page.stores.now) (questions (nodes_of (bytes_of page.policy))) }
    requires in_list { origin.place + length (bytes_of page.policy) < 2 ^ 64 }
    ensures told { IfOk result (λ is_there. TellsQuestionObject is_there (audited page.entry) origin id
        (pen_of W.contents out.old) (pen_of W.contents out.new)) }
    ensures begun { OnErr result (BeginsQuestionObject (audited page.entry) origin id
        (pen_of W.contents out.old) (pen_of W.contents out.new)) }
    ensures refused { IfErr result (λ fault. fault ≡ out_of_memory) }
{
    match page.questions().find(id) {
        Some(question) => {
            put_lone(alloc, page, origin, question, out)?;
            Ok(true)
        }
        None => {
            put_no_question(id, out);
            Ok(false)
        }
    }
}

// Writes that there is no question of an id.
fn put_no_question<W: Write>(id: u16, out: &mut Watched<W>)
    ensures { Puts W.contents out.old out.new (no_question_object id) }
{
    put_object_kind(b"error", out);
    put_member(b"text", out);
    out.put(b"\"NO QUESTION ");
    out.put_decimal(u64::from(id));
    out.put(b"\"");
    end_object(out);
}

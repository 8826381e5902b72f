//! All questions of a form set.

ghost use Rattle.std.specs.Prelude.{◌≡◌, ◌⊎◌, ◌+◌, ◌<◌, ◌^◌, ℕ, Bool, OnOk, OnErr, IfErr, filter, length};
ghost use Rattle.std.specs.List.{flat_map};
ghost use Rattle.hii_bytes.specs.Faults.{out_of_memory};
ghost use Rattle.hii_bytes.specs.Watching.{Puts, pen_of};
ghost use Rattle.hii_bytes.specs.code.NumberSets.{has_number};
ghost use Rattle.ifr_nodes.specs.Nodes.{is_form, nodes_of};
ghost use Rattle.ifr_nodes.specs.code.Checked.{IsNodeOf};
ghost use Rattle.ifr_scopes.specs.code.Lists.{form_node};
ghost use Rattle.hii_questions.specs.Fields.{asked, questions};
ghost use Rattle.hii_questions.specs.code.LyingIn.{LieIn, LiesIn};
ghost use Rattle.hii_questions.specs.code.Views.{question_node, question_view};
ghost use Rattle.hii_varstore.specs.Stores.{shape_of};
ghost use Rattle.guard_policy.specs.code.Views.{bytes_of};
ghost use Rattle.form_page.specs.code.PageViews.{world_of};
ghost use Rattle.question_audit.specs.FormLines.{form_questions};
ghost use Rattle.question_audit.specs.Reach.{TellsReached};
ghost use Rattle.question_audit.specs.code.Closings.{TellsWays};
ghost use Rattle.question_audit.specs.code.Pages.{audited};
ghost use Rattle.question_audit.specs.code.Beginnings.{Begins};
ghost use Rattle.question_objects.specs.FormSets.{form_objects, form_set_objects, listed_members, listed_object};
ghost use Rattle.question_objects.specs.code.Knowing.{IsKnown};

use crate::condition_objects::put_condition_objects;
use crate::detail::Detail;
use crate::objects::{Known, Telling, put_members, put_object};
use crate::reach::put_form;
use form_page::Page;
use guard_policy::Conditions;
use hii_bytes::{Fault, Watched};
use hii_questions::Question;
use hii_varstore::Stores;
use ifr_scopes::Form;
use question_audit::{Origin, Tables, Ways, scope_locks};
use std::alloc::{AllocError, Global};
use std::io::Write;

/// Writes what is told of a question among those of its form, as members of an object behind its kind. `spare` are stores that hold the
/// same as those of the page, before and after. The forms package stands at a place of the file. Where an allocation fails, the beginning
/// of these members may be written.
pub fn put_listed_members<'a, C: Conditions, W: Write>(
    alloc: Global,
    page: Page<'a, '_, C>,
    known: Known<'_, 'a>,
    package_place: u64,
    form: Form<'a>,
    question: Question<'a>,
    spare: &mut Stores,
    out: &mut Watched<W>,
) -> Result<(), AllocError>
    requires node { IsNodeOf (bytes_of page.policy) (question_node question) }
    requires asked { question_view question
        ≡ asked (nodes_of (bytes_of page.policy)) (question_node question) }
    requires lies { LiesIn (shape_of page.stores.now) (question_view question) }
    requires known { IsKnown (audited page) (bytes_of page.policy) known }
    requires in_file { package_place + length (bytes_of page.policy) < 2 ^ 64 }
    requires same { spare.old ≡ page.stores.now }
    ensures same { spare.new ≡ page.entry.stores.now }
    ensures told { OnOk result (Puts W.contents out.old out.new
        (listed_members (audited page.entry) package_place (form_node form.entry) (question_node question.entry))) }
    ensures begun { OnErr result (Begins (pen_of W.contents out.old) (pen_of W.contents out.new)
        (listed_members (audited page.entry) package_place (form_node form.entry) (question_node question.entry))) }
{
    let telling = Telling {
        detail: Detail::Listed,
        package_place,
        form: Some(form),
    };
    put_members(alloc, page, known, telling, question, spare, out)
}

// Writes the questions of a form, by place. Where an allocation fails, the beginning of these objects may be written.
fn put_questions_of<'a, C: Conditions, W: Write>(
    alloc: Global,
    page: Page<'a, '_, C>,
    known: Known<'_, 'a>,
    package_place: u64,
    form: Form<'a>,
    spare: &mut Stores,
    out: &mut Watched<W>,
) -> Result<(), AllocError>
    requires node { IsNodeOf (bytes_of page.policy) (form_node form) }
    requires lie { LieIn (shape_of page.stores.now) (questions (nodes_of (bytes_of page.policy))) }
    requires known { IsKnown (audited page) (bytes_of page.policy) known }
    requires in_file { package_place + length (bytes_of page.policy) < 2 ^ 64 }
    requires same { spare.old ≡ page.stores.now }
    ensures same { OnOk result (spare.new ≡ page.entry.stores.now) }
    ensures told { OnOk result (Puts W.contents out.old out.new
        (flat_map (listed_object (audited page.entry) package_place (form_node form.entry)) (form_questions (form_node form.entry)))) }
    ensures begun { OnErr result (Begins (pen_of W.contents out.old) (pen_of W.contents out.new)
        (flat_map (listed_object (audited page.entry) package_place (form_node form.entry)) (form_questions (form_node form.entry)))) }
{
    let telling = Telling {
        detail: Detail::Listed,
        package_place,
        form: Some(form),
    };
    let mut statements = page.policy().forms().statements_of(form);
    while let Some(statement) = statements.next() {
        if let Some(question) = page.policy().question(statement) {
            put_object(alloc, page, known, telling, question, spare, out)?;
        }
    }
    Ok(())
}

// Writes a form and its questions. Where an allocation fails, the beginning of these objects may be written.
fn put_form_objects<'a, C: Conditions, W: Write>(
    alloc: Global,
    page: Page<'a, '_, C>,
    known: Known<'_, 'a>,
    ways: &Ways,
    package_place: u64,
    form: Form<'a>,
    spare: &mut Stores,
    out: &mut Watched<W>,
) -> Result<(), AllocError>
    requires node { IsNodeOf (bytes_of page.policy) (form_node form) }
    requires lie { LieIn (shape_of page.stores.now) (questions (nodes_of (bytes_of page.policy))) }
    requires known { IsKnown (audited page) (bytes_of page.policy) known }
    requires ways { TellsWays (world_of page) ways.now }
    requires in_file { package_place + length (bytes_of page.policy) < 2 ^ 64 }
    requires same { spare.old ≡ page.stores.now }
    ensures same { OnOk result (spare.new ≡ page.entry.stores.now) }
    ensures told { OnOk result (Puts W.contents out.old out.new
        (form_objects (audited page.entry) (has_number ways.now.reached) package_place (form_node form.entry))) }
    ensures begun { OnErr result (Begins (pen_of W.contents out.old) (pen_of W.contents out.new)
        (form_objects (audited page.entry) (has_number ways.now.reached) package_place (form_node form.entry))) }
{
    put_form(page, ways, form, out);
    put_questions_of(alloc, page, known, package_place, form, spare, out)
}

// Writes the forms and their questions, by place. Where an allocation fails, the beginning of these objects may be written.
fn put_forms<'a, C: Conditions, W: Write>(
    alloc: Global,
    page: Page<'a, '_, C>,
    known: Known<'_, 'a>,
    ways: &Ways,
    package_place: u64,
    spare: &mut Stores,
    out: &mut Watched<W>,
) -> Result<(), AllocError>
    requires lie { LieIn (shape_of page.stores.now) (questions (nodes_of (bytes_of page.policy))) }
    requires known { IsKnown (audited page) (bytes_of page.policy) known }
    requires ways { TellsWays (world_of page) ways.now }
    requires in_file { package_place + length (bytes_of page.policy) < 2 ^ 64 }
    requires same { spare.old ≡ page.stores.now }
    ensures told { OnOk result (Puts W.contents out.old out.new
        (flat_map (form_objects (audited page.entry) (has_number ways.now.reached) package_place)
        (filter is_form (nodes_of (bytes_of page.entry.policy))))) }
    ensures begun { OnErr result (Begins (pen_of W.contents out.old) (pen_of W.contents out.new)
        (flat_map (form_objects (audited page.entry) (has_number ways.now.reached) package_place)
        (filter is_form (nodes_of (bytes_of page.entry.policy))))) }
{
    let mut forms = page.policy().forms().forms();
    while let Some(form) = forms.next() {
        put_form_objects(alloc, page, known, ways, package_place, form, spare, out)?;
    }
    Ok(())
}

/// Writes an object of JSON for each form of the form set of a page, by place, with how it is reached, and under it one for each of its
/// questions, by place, over the stores of the page; then, by place, one for each guard and for each RULE of the form set. The forms
/// package stands at a place of the file. Where an allocation fails, the beginning of these objects may be written.
pub fn put_questions_objects<'a, C: Conditions, W: Write>(
    alloc: Global,
    page: Page<'a, '_, C>,
    origin: Origin,
    out: &mut Watched<W>,
) -> Result<(), Fault>
    requires lie { LieIn (shape_of page.stores.now) (questions (nodes_of (bytes_of page.policy))) }
    requires in_list { origin.place + length (bytes_of page.policy) < 2 ^ 64 }
    ensures written { OnOk result ((is_reached : ℕ → Bool) × TellsReached (world_of page.entry) is_reached
        × Puts W.contents out.old out.new
        (form_set_objects (audited page.entry) is_reached origin.place)) }
    ensures begun { OnErr result ((out.new ≡ out.old)
        ⊎ ((is_reached : ℕ → Bool) × TellsReached (world_of page.entry) is_reached
        × Begins (pen_of W.contents out.old) (pen_of W.contents out.new)
        (form_set_objects (audited page.entry) is_reached origin.place))) }
    ensures refused { IfErr result (λ fault. fault ≡ out_of_memory) }
{
    let tables = Tables::read(alloc, page)?;
    let locks = scope_locks(alloc, page.policy().forms().bytes())?;
    let mut spare = page.stores().copy(alloc)?;
    let known = Known {
        names: &tables.names,
        guards: &tables.guards,
        locks: &locks,
    };
    put_forms(
        alloc,
        page,
        known,
        &tables.ways,
        origin.place,
        &mut spare,
        out,
    )?;
    put_condition_objects(page, origin.place, out);
    Ok(())
}

//! All faults of the questions of a form set.

ghost use Rattle.std.specs.Prelude.{◌≡◌, ◌++◌, IfOk, OnOk};
ghost use Rattle.std.specs.List.{flat_map};
ghost use Rattle.ifr_opcodes.specs.Fields.{question_store};
ghost use Rattle.ifr_nodes.specs.Nodes.{nodes_of, options};
ghost use Rattle.hii_varstore.specs.Layout.{size_of};
ghost use Rattle.hii_varstore.specs.StoreNodes.{layout_of};
ghost use Rattle.hii_questions.specs.Faults.{IsQuestionFault, is_known, parts_of};
ghost use Rattle.hii_questions.specs.Fields.{asked, questions};
ghost use Rattle.hii_questions.specs.code.Gathered.{AreGathered};
ghost use Rattle.hii_questions.specs.code.Views.{question_node, question_view};
ghost use Rattle.package_faults.specs.AllFaults.{AreAll};
ghost use Rattle.package_faults.specs.code.Parts.{option_faults, part_faults};

use crate::gathering::add_where;
use hii_bytes::{Cause, Fault, NumberSet};
use hii_questions::{Question, QuestionEntry, first_kind, is_outside, lacks_store, option_fault};
use hii_varstore::Layout;
use ifr_scopes::Forms;
use std::alloc::{AllocError, Global};

/// All faults of the questions of a form set, by place and then by cause (own rule): a store that is not there, UnknownVarstore
/// (35), or a field that reaches past the end of its store, FieldOutside (36), each at the question; an option of a ONE_OF that is no
/// number of its width, OptionRange (37), or one of an ORDERED_LIST of another Type than the first, MixedOptions (38), each at the
/// option. The layout is that of the form set.
pub fn question_faults(
    alloc: Global,
    forms: &Forms<'_>,
    layout: &Layout<'_>,
) -> Result<Vec<Fault>, AllocError>
    requires { layout.now ≡ layout_of (nodes_of forms.now) }
    ensures { IfOk result (λ faults. AreAll (IsQuestionFault (nodes_of forms.now)) faults.items) }
{
    let _accepted = forms.bytes();
    faults_of_all(alloc, forms, layout)
}

// The faults of all questions, question by question.
fn faults_of_all(
    alloc: Global,
    forms: &Forms<'_>,
    layout: &Layout<'_>,
) -> Result<Vec<Fault>, AllocError>
    requires { layout.now ≡ layout_of (nodes_of forms.now) }
    ensures { IfOk result (λ faults. faults.items ≡ part_faults (layout_of (nodes_of forms.now))
        (is_known (nodes_of forms.now)) (flat_map parts_of (questions (nodes_of forms.now)))) }
{
    let mut faults = Vec::new(alloc);
    let mut store_ids = None;
    for statement in forms.statements() {
        if let Some(op) = statement.question() {
            let size = layout.size(op.store());
            let entry = QuestionEntry::of(statement, op, size);
            let question = Question::of(statement, entry);
            add_of_question(alloc, forms, &mut store_ids, question, size, &mut faults)?;
        }
    }
    Ok(faults)
}

// Adds the faults of a question and of its options. Its store holds so many bytes, if any.
fn add_of_question(
    alloc: Global,
    forms: &Forms<'_>,
    ids: &mut Option<NumberSet>,
    question: Question<'_>,
    size: Option<u16>,
    faults: &mut Vec<Fault>,
) -> Result<(), AllocError>
    requires sized { size ≡ size_of (layout_of (nodes_of forms.now))
        (question_store (question_node question).op) }
    requires asked { question_view question ≡ asked (nodes_of forms.now) (question_node question) }
    requires gathered { AreGathered (nodes_of forms.now) ids.old }
    ensures added { OnOk result (faults.new.items ≡ faults.old.items
        ++ part_faults (layout_of (nodes_of forms.now)) (is_known (nodes_of forms.now))
        (parts_of (question_view question.entry))) }
    ensures gathered { AreGathered (nodes_of forms.now) ids.new }
{
    let place = question.place();
    let lacks = lacks_store(alloc, forms, ids, question, size)?;
    add_where(lacks, Cause::UnknownVarstore, place, faults)?;
    add_where(
        is_outside(question, size),
        Cause::FieldOutside,
        place,
        faults,
    )?;
    add_of_options(question, faults)
}

// Adds the faults of the options of a question.
fn add_of_options(question: Question<'_>, faults: &mut Vec<Fault>) -> Result<(), AllocError>
    ensures { OnOk result (faults.new.items ≡ faults.old.items
        ++ option_faults (question_node question.entry) (options (question_node question.entry))) }
{
    let statement = question.statement();
    let first = first_kind(statement);
    for option in statement.options() {
        if let Some(cause) = option_fault(question, first, option) {
            faults.push(option.op().op.fault(cause))?;
        }
    }
    Ok(())
}

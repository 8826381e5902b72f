//! Whether the stores hold the fields of all questions, and the options of lists suit.

ghost use Rattle.std.specs.Prelude.{◌≡◌, ◌⊎◌, IfOk, MatchResult, None, Some};
ghost use Rattle.hii_bytes.specs.Faults.{out_of_memory};
ghost use Rattle.hii_bytes.specs.code.FirstFaults.{first_cause};
ghost use Rattle.ifr_opcodes.specs.Fields.{question_store};
ghost use Rattle.ifr_nodes.specs.Nodes.{nodes_of, options};
ghost use Rattle.ifr_nodes.specs.code.Checked.{IsNodeOf, node_in};
ghost use Rattle.ifr_scopes.specs.code.Parts.{option_node};
ghost use Rattle.hii_varstore.specs.Layout.{size_of};
ghost use Rattle.hii_varstore.specs.StoreNodes.{layout_of};
ghost use Rattle.hii_values.specs.Types.{first_kind as first_kind_of};
ghost use Rattle.hii_questions.specs.Faults.{parts_of, has_option_fault, is_known, lacks_store};
ghost use Rattle.hii_questions.specs.Fields.{asked};
ghost use Rattle.hii_questions.specs.code.Causes.{question_causes};
ghost use Rattle.hii_questions.specs.code.Entries.{IsQuestionEntry};
ghost use Rattle.hii_questions.specs.code.FaultTells.{TellsFault, first_part_fault, first_option_fault, is_choice, reaches_past};
ghost use Rattle.hii_questions.specs.code.Gathered.{AreGathered};
ghost use Rattle.hii_questions.specs.code.Views.{question_node, question_view};

use crate::entry::QuestionEntry;
use crate::question::Question;
use crate::store_ids::has_store;
use hii_bytes::{Cause, Fault, NumberSet};
use hii_values::fitting_bits;
use ifr_opcodes::{ONE_OF, ORDERED_LIST};
use ifr_scopes::{Forms, OptionView, StatementKind};
use std::alloc::{AllocError, Global};

/// Whether a question names a store, and none that is there. Its store holds so many bytes, if any. The ids of all stores are
/// gathered when they are first wanted.
pub fn lacks_store(
    alloc: Global,
    forms: &Forms<'_>,
    ids: &mut Option<NumberSet>,
    question: Question<'_>,
    size: Option<u16>,
) -> Result<bool, AllocError>
    requires sized { size ≡ size_of (layout_of (nodes_of forms.now))
        (question_store (question_node question).op) }
    requires gathered { AreGathered (nodes_of forms.now) ids.old }
    ensures told { IfOk result (λ lacks. lacks
        ≡ lacks_store (is_known (nodes_of forms.now)) (question_node question.entry)) }
    ensures gathered { AreGathered (nodes_of forms.now) ids.new }
{
    let store = question.op().store();
    if store == 0 || size.is_some() {
        return Ok(false);
    }
    let has = has_store(alloc, forms, ids, store)?;
    Ok(!has)
}

/// Whether the field of a question reaches past the end of its store, which holds so many bytes.
pub fn is_outside(question: Question<'_>, size: Option<u16>) -> bool
    ensures { result ≡ reaches_past (question_view question.entry).field size }
{
    let (Some(field), Some(size)) = (question.field, size) else {
        return false;
    };
    let size = usize::from(size);
    let offset = usize::from(field.offset);
    size < offset || size - offset < field.width
}

/// What is wrong with an option of a question, whose first option is of this Type.
#[inline(always)]
pub fn option_fault(
    question: Question<'_>,
    first: Option<u8>,
    option: OptionView<'_>,
) -> Option<Cause>
    requires { first ≡ first_kind_of (options (question_node question)) }
    ensures { result ≡ first_cause (has_option_fault (question_node question.entry))
        (option_node option.entry) question_causes }
{
    let option = option.op();
    match question.statement.kind() {
        StatementKind::OneOf(one_of) if fitting_bits(one_of.width(), option.value()).is_none() => {
            Some(Cause::OptionRange)
        }
        StatementKind::OrderedList(_) => match first {
            Some(first) if first != option.kind() => Some(Cause::MixedOptions),
            _ => None,
        },
        _ => None,
    }
}

// Whether an option of a question may have a fault: it is a ONE_OF or an ORDERED_LIST.
fn is_choice(question: Question<'_>) -> bool
    ensures { result ≡ is_choice (question_node question.entry) }
{
    question.op().op.code == ONE_OF || question.op().op.code == ORDERED_LIST
}

// The Type of the first option of a question.
fn first_kind_in(forms: &Forms<'_>, question: Question<'_>) -> Option<u8>
    requires { IsNodeOf forms.now (question_node question) }
    ensures { result ≡ first_kind_of (options (question_node question.entry)) }
{
    let option = forms.options_of(question.statement).next()?;
    Some(option.op().kind())
}

// Refuses the first option with a fault of the question of which this is kept.
#[inline(never)]
fn check_options(forms: &Forms<'_>, entry: QuestionEntry) -> Result<(), Fault>
    requires { IsQuestionEntry forms.now entry }
    ensures { TellsFault (first_option_fault (node_in forms.now entry.place)
        (options (node_in forms.now entry.place))) result }
{
    let question = Question::kept(forms.bytes(), entry);
    let first = first_kind_in(forms, question);
    for option in forms.options_of(question.statement) {
        if let Some(cause) = option_fault(question, first, option) {
            return Err(option.op().op.fault(cause));
        }
    }
    Ok(())
}

/// Refuses a question whose store is not there by UnknownVarstore, or whose field reaches past its store's end by
/// FieldOutside, each at the question, and then the first option of it with a fault: one of a ONE_OF that is no number of
/// its width by OptionRange, one of an ORDERED_LIST of another Type than the first by MixedOptions, each at its place (own
/// rule). Where an allocation fails the fault is OutOfMemory. The question's store holds so many bytes, if any, and this is
/// kept of it.
pub(crate) fn check_question(
    alloc: Global,
    forms: &Forms<'_>,
    ids: &mut Option<NumberSet>,
    question: Question<'_>,
    entry: QuestionEntry,
    size: Option<u16>,
) -> Result<(), Fault>
    requires kept { IsQuestionEntry forms.now entry }
    requires same { node_in forms.now entry.place ≡ question_node question }
    requires sized { size ≡ size_of (layout_of (nodes_of forms.now))
        (question_store (question_node question).op) }
    requires asked { question_view question ≡ asked (nodes_of forms.now) (question_node question) }
    requires gathered { AreGathered (nodes_of forms.now) ids.old }
    ensures told { MatchResult result
        (λ _. first_part_fault (layout_of (nodes_of forms.now)) (is_known (nodes_of forms.now))
        (parts_of (question_view question.entry)) ≡ None)
        (λ fault. (fault ≡ out_of_memory)
        ⊎ (first_part_fault (layout_of (nodes_of forms.now)) (is_known (nodes_of forms.now))
        (parts_of (question_view question.entry)) ≡ Some fault)) }
    ensures gathered { AreGathered (nodes_of forms.now) ids.new }
{
    if lacks_store(alloc, forms, ids, question, size)? {
        return Err(question.op().op.fault(Cause::UnknownVarstore));
    }
    if is_outside(question, size) {
        return Err(question.op().op.fault(Cause::FieldOutside));
    }
    if !is_choice(question) {
        return Ok(());
    }
    check_options(forms, entry)
}

//! The questions of a form set as they are kept.

ghost use Rattle.std.specs.Prelude.{◌≡◌, ◌⊎◌, ◌<◌, ◌-◌, ◌++◌, IfOk, IfErr, OnOk, None, Some, filter, length, map, replicate};
ghost use Rattle.std.specs.List.{flat_map};
ghost use Rattle.hii_bytes.specs.Faults.{out_of_memory};
ghost use Rattle.ifr_nodes.specs.Accepted.{IsAccepted};
ghost use Rattle.ifr_nodes.specs.Nodes.{nodes_of};
ghost use Rattle.ifr_nodes.specs.code.Checked.{node_in};
ghost use Rattle.hii_varstore.specs.StoreNodes.{layout_of};
ghost use Rattle.hii_values.specs.Types.{is_password};
ghost use Rattle.hii_questions.specs.Faults.{is_known, parts_of};
ghost use Rattle.hii_questions.specs.Fields.{questions};
ghost use Rattle.hii_questions.specs.code.Entries.{AreQuestionEntries, entry_view};
ghost use Rattle.hii_questions.specs.code.FaultTells.{first_part_fault};
ghost use Rattle.hii_questions.specs.code.Ids.{ids_from};

use crate::check::check_question;
use crate::entry::QuestionEntry;
use crate::question::Question;
use hii_bytes::{Fault, IdEntry};
use hii_values::{FEW_OPTIONS, OptionTable};
use hii_varstore::Layout;
use ifr_scopes::{Forms, Statement};
use std::alloc::{AllocError, Global};

/// The questions of a form set by place, the number of each by its id, and those for passwords by place, or the first fault of
/// the questions. Where an allocation fails the fault is OutOfMemory.
pub(crate) fn read_questions(
    alloc: Global,
    forms: &Forms<'_>,
    layout: &Layout<'_>,
) -> Result<(Vec<QuestionEntry>, Vec<IdEntry>, Vec<QuestionEntry>), Fault>
    requires laid { layout.now ≡ layout_of (nodes_of forms.now) }
    requires accepted { IsAccepted forms.now }
    ensures placed { IfOk result (λ read. map (entry_view forms.now) read.0.items
        ≡ questions (nodes_of forms.now)) }
    ensures kept { IfOk result (λ read. AreQuestionEntries forms.now read.0.items) }
    ensures numbered { IfOk result (λ read. read.1.items
        ≡ ids_from 0 (questions (nodes_of forms.now))) }
    ensures secret { IfOk result (λ read. read.2.items
        ≡ filter (λ e. is_password (node_in forms.now e.place)) read.0.items) }
    ensures sound { IfOk result (λ _. first_part_fault (layout_of (nodes_of forms.now))
        (is_known (nodes_of forms.now)) (flat_map parts_of (questions (nodes_of forms.now)))
        ≡ None) }
    ensures refused { IfErr result (λ fault. (fault ≡ out_of_memory)
        ⊎ (first_part_fault (layout_of (nodes_of forms.now)) (is_known (nodes_of forms.now))
        (flat_map parts_of (questions (nodes_of forms.now))) ≡ Some fault)) }
{
    let count = forms.question_count();
    let mut by_place = Vec::with_capacity(alloc, count)?;
    let mut numbers = Vec::with_capacity(alloc, count)?;
    let mut passwords = Vec::new(alloc);
    let mut store_ids = None;
    for statement in forms.statements() {
        if let Some(op) = statement.question() {
            let size = layout.size(op.store());
            let entry = QuestionEntry::of(statement, op, size);
            let question = Question::of(statement, entry);
            check_question(alloc, forms, &mut store_ids, question, entry, size)?;
            numbers.push(IdEntry {
                id: question.id(),
                number: by_place.len() as u32,
            })?;
            by_place.push(entry)?;
            if question.is_password() {
                passwords.push(entry)?;
            }
        }
    }
    Ok((by_place, numbers, passwords))
}

// Adds a number as often as it takes for so many.
fn fill(numbers: &mut Vec<u32>, count: usize, number: u32) -> Result<(), AllocError>
    ensures { OnOk result (numbers.new.items
        ≡ numbers.old.items ++ replicate (count - length numbers.old.items) number) }
{
    while numbers.len() < count {
        numbers.push(number)?;
    }
    Ok(())
}

/// For each position of the index, up to that of the last question, how many questions stand before it.
pub(crate) fn numbers_near(
    alloc: Global,
    questions: &[QuestionEntry],
) -> Result<Vec<u32>, AllocError> {
    let Some(last) = questions.last() else {
        return Ok(Vec::new(alloc));
    };
    let mut near = Vec::with_capacity(alloc, last.position as usize + 1)?;
    let mut number = 0u32;
    for question in questions {
        fill(&mut near, question.position as usize + 1, number)?;
        number = number.wrapping_add(1);
    }
    Ok(near)
}

// Whether so much stands between a question and the next that it may have many options.
fn may_have_many(questions: &[QuestionEntry], number: usize) -> bool
    requires { number < length questions.now }
{
    match questions.get(number + 1) {
        Some(next) => {
            next.position.wrapping_sub(questions[number].position) as usize > FEW_OPTIONS
        }
        None => true,
    }
}

/// The options of those of some questions that have many, by their values.
pub(crate) fn options_of<'a>(
    alloc: Global,
    forms: &Forms<'a>,
    questions: &[QuestionEntry],
) -> Result<OptionTable<'a>, AllocError>
    requires accepted { IsAccepted forms.now }
    requires kept { AreQuestionEntries forms.now questions.now }
    ensures { IfOk result (λ table. table ≡ forms.now) }
{
    let ifr = forms.bytes();
    let mut table = OptionTable::new(alloc, ifr);
    for number in 0..questions.len() {
        if may_have_many(questions, number) {
            let entry = questions[number];
            let question = Statement::at(ifr, entry.place, entry.position);
            table = table.add(alloc, forms, question)?;
        }
    }
    Ok(table)
}

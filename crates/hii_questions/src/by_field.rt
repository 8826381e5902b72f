//! The questions of a form set by their fields.

ghost use Rattle.std.specs.Prelude.{◌≡◌, ◌≤◌, ◌<◌, ◌^◌, true, false, IfOk, filter, length};
ghost use Rattle.std.specs.List.Sorted.{IsPartitionPoint, IsPartitionedBy};
ghost use Rattle.hii_questions.specs.code.ByField.{AreAllNumbers, AreByField, FieldsRise, numbered_field, has_range_at, is_up_to};

use crate::entry::QuestionEntry;
use crate::field_range::FieldRange;
use std::alloc::{AllocError, Global};

// The numbers of some questions, in the order that these have.
fn numbers_of(alloc: Global, questions: &[QuestionEntry]) -> Result<Vec<u32>, AllocError>
    requires { length questions.now < 2 ^ 32 }
    ensures { IfOk result (λ numbers. AreAllNumbers questions.now numbers.items) }
{
    let mut numbers = Vec::with_capacity(alloc, questions.len())?;
    for number in 0..questions.len() as u32 {
        numbers.push(number)?;
    }
    Ok(numbers)
}

// Where the field of the question of a number lies, if it has one.
fn numbered_field(questions: &[QuestionEntry], number: u32) -> Option<FieldRange>
    ensures { result ≡ numbered_field questions.now number }
{
    match questions.get(number as usize) {
        Some(question) => question.field(),
        None => None,
    }
}

/// The numbers of some questions in the order of their fields, those of one field in the order that they have.
pub(crate) fn questions_by_field(
    alloc: Global,
    questions: &[QuestionEntry],
) -> Result<Vec<u32>, AllocError>
    requires { length questions.now < 2 ^ 32 }
    ensures { IfOk result (λ by_field. AreByField questions.now by_field.items) }
{
    let mut by_field = numbers_of(alloc, questions)?;
    if !questions.is_sorted_by_key(|question| question.field) {
        by_field.sort_by_key(|number| numbered_field(questions, *number))?;
    }
    Ok(by_field)
}

/// The numbers of the questions whose field is exactly this one, among those of some in the order of their fields.
pub(crate) fn questions_with<'n>(
    questions: &[QuestionEntry],
    by_field: &'n [u32],
    field: FieldRange,
) -> &'n [u32]
    requires { FieldsRise questions.now by_field.now }
    ensures { result.now ≡ filter (has_range_at questions.now field) by_field.now }
{
    let wanted = Some(field);
    let first = by_field.partition_point(|number| numbered_field(questions, *number)
        .cmp(&wanted)
        .is_lt());
    let from = &by_field[first..];
    &from[..count_up_to(questions, from, field)]
}

// Whether the question of a number does not stand behind a field.
fn is_up_to(questions: &[QuestionEntry], number: u32, field: FieldRange) -> bool
    ensures { result ≡ is_up_to questions.now field number }
{
    numbered_field(questions, number).cmp(&Some(field)).is_le()
}

// How many of the questions of some numbers do not stand behind a field: those at the front, of which there is mostly one.
fn count_up_to(questions: &[QuestionEntry], numbers: &[u32], field: FieldRange) -> usize
    requires { IsPartitionedBy (is_up_to questions.now field) numbers.now }
    ensures bound { result ≤ length numbers.now }
    ensures point { IsPartitionPoint (λ n. is_up_to questions.now field n ≡ true)
        (λ n. is_up_to questions.now field n ≡ false) numbers.now result }
{
    if numbers.len() > 1 && is_up_to(questions, numbers[1], field) {
        return numbers.partition_point(|number| is_up_to(questions, *number, field));
    }
    if numbers.len() > 0 && is_up_to(questions, numbers[0], field) {
        return 1;
    }
    0
}

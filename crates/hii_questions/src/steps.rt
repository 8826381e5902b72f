//! Which of some fields is the first that has a byte, for all bytes of the stores.

ghost use Rattle.std.specs.Prelude.{◌≡◌, ◌+◌, ◌++◌, ◌≤◌, ◌<◌, ℕ, IfOk, IfSome, OnOk, length, option_map};
ghost use Rattle.std.specs.List.{find};
ghost use Rattle.hii_questions.specs.Fields.{field_passes, meets};
ghost use Rattle.hii_questions.specs.code.Entries.{entry_field};
ghost use Rattle.hii_questions.specs.code.Ranges.{range_in};
ghost use Rattle.hii_questions.specs.code.Steps.{AreSmall, AreSteps, IsLeastWithin, StepsRise, first_from, is_small, least_met, steps_behind, tells_first, told_behind, value_at};

use crate::entry::QuestionEntry;
use crate::field_range::FieldRange;
use crate::merging::{Step, merged};
use std::alloc::{AllocError, Global};

// The steps of one field of a number.
fn steps_of_one(
    alloc: Global,
    field: Option<FieldRange>,
    number: usize,
    none: usize,
) -> Result<Vec<Step>, AllocError>
    ensures first { IfOk result (λ steps. (at : ℕ) → value_at none steps.items at
        ≡ tells_first none number field at) }
    ensures rise { IfOk result (λ steps. StepsRise 0 steps.items) }
    ensures small { IfOk result (λ steps. is_small field) }
{
    let mut steps = Vec::with_capacity(alloc, 2)?;
    if let Some(field) = field {
        let from = field.first();
        let behind = field.behind();
        if from < behind {
            steps.push(Step {
                from,
                first: number,
            })?;
            steps.push(Step {
                from: behind,
                first: none,
            })?;
        }
    }
    Ok(steps)
}

// The steps of the fields of some questions, which have numbers from one on.
fn steps_of(
    alloc: Global,
    questions: &[QuestionEntry],
    number: usize,
    none: usize,
) -> Result<Vec<Step>, AllocError>
    requires { number + length questions.now ≤ none }
    ensures first { IfOk result (λ steps. (at : ℕ) → value_at none steps.items at
        ≡ first_from none number questions.now at) }
    ensures rise { IfOk result (λ steps. StepsRise 0 steps.items) }
    ensures small { IfOk result (λ steps. AreSmall questions.now) }
{
    match questions {
        [] => Ok(Vec::new(alloc)),
        [question] => steps_of_one(alloc, question.field(), number, none),
        _ => {
            let (before, behind) = questions.split_at(questions.len() / 2);
            let left = steps_of(alloc, before, number, none)?;
            let right = steps_of(alloc, behind, number + before.len(), none)?;
            merged(alloc, &left, &right, none)
        }
    }
}

// Adds the step of a field of a number behind fields that end at a byte, and before it one for the bytes between them.
fn add_behind(
    steps: &mut Vec<Step>,
    end: u64,
    from: u64,
    number: usize,
    none: usize,
) -> Result<(), AllocError>
    ensures { OnOk result (steps.new.items ≡ steps.old.items ++ steps_behind none end from number) }
{
    if end < from {
        steps.push(Step {
            from: end,
            first: none,
        })?;
    }
    steps.push(Step {
        from,
        first: number,
    })?;
    Ok(())
}

// The steps of the fields of some questions, if each has a byte and begins where those before it end, or behind that.
fn steps_in_order(
    alloc: Global,
    questions: &[QuestionEntry],
) -> Result<Option<Vec<Step>>, AllocError>
    ensures { IfOk result (λ made. IfSome made (λ steps. AreSteps questions.now steps.items)) }
{
    let none = questions.len();
    let mut steps = Vec::with_capacity(alloc, 2 * none + 1)?;
    let mut end = 0;
    for (number, question) in questions.iter().enumerate() {
        if let Some(field) = question.field() {
            let from = field.first();
            if from < end || field.width == 0 {
                return Ok(None);
            }
            add_behind(&mut steps, end, from, number, none)?;
            end = field.behind();
        }
    }
    steps.push(Step {
        from: end,
        first: none,
    })?;
    steps.shrink_to_fit();
    Ok(Some(steps))
}

/// The steps that tell of each byte the first of some questions whose field has it.
pub(crate) fn steps_among(
    alloc: Global,
    questions: &[QuestionEntry],
) -> Result<Vec<Step>, AllocError>
    ensures { IfOk result (λ steps. AreSteps questions.now steps.items) }
{
    if questions.is_empty() {
        return Ok(Vec::new(alloc));
    }
    match steps_in_order(alloc, questions)? {
        Some(steps) => Ok(steps),
        None => steps_of(alloc, questions, 0, questions.len()),
    }
}

// The least number that steps tell up to before a byte, but for what is before the first step.
fn least_before(steps: &[Step], none: usize, end: u64) -> usize
    ensures { result ≡ least_met none end steps.now }
{
    let mut least = none;
    for step in steps {
        if step.from >= end {
            break;
        }
        least = least.min(step.first);
    }
    least
}

// The number that is told behind so many steps.
fn told_behind(steps: &[Step], none: usize, count: usize) -> usize
    requires { count ≤ length steps.now }
    ensures { result ≡ told_behind none steps.now count }
{
    match count.checked_sub(1) {
        Some(last) => steps[last].first,
        None => none,
    }
}

// The least number that steps tell of the bytes from one on up to before another.
fn least_within(steps: &[Step], none: usize, from: u64, end: u64) -> usize
    requires { StepsRise 0 steps.now }
    ensures { IsLeastWithin steps.now none from end result }
{
    if from >= end {
        return none;
    }
    let begun = steps.partition_point(|step| step.from <= from);
    told_behind(steps, none, begun).min(least_before(&steps[begun..], none, end))
}

/// The first of some questions whose field has a byte of this one, by the steps of all.
pub(crate) fn first_in(
    questions: &[QuestionEntry],
    steps: &[Step],
    field: FieldRange,
) -> Option<QuestionEntry>
    requires { AreSteps questions.now steps.now }
    ensures { result ≡ find (λ e. field_passes (meets (range_in field)) (option_map range_in (entry_field e))) questions.now }
{
    let first = least_within(steps, questions.len(), field.first(), field.behind());
    if first < questions.len() {
        Some(questions[first])
    } else {
        None
    }
}

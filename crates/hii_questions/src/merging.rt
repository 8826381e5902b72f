//! Two lists of steps as one.

ghost use Rattle.std.specs.Prelude.{◌≡◌, ℕ, IfOk, min};
ghost use Rattle.hii_questions.specs.code.Steps.{StepsRise, value_at};

use std::alloc::{AllocError, Global};

/// From a byte on, up to that of the next step, the number of the first field that has it.
#[derive(Clone, Copy)]
pub(crate) struct Step {
    /// The number of the byte among those of all stores.
    pub(crate) from: u64,
    /// The number of the field; how many there are where none has the byte.
    pub(crate) first: usize,
}

/// The steps that are left of a list, and the number of the one before them.
#[derive(Clone, Copy)]
struct Cursor<'s> {
    first: usize,
    steps: &'s [Step],
}

impl<'s> Cursor<'s> {
    ghost use Rattle.hii_questions.specs.code.Merging.{passed, behind};

    // Goes past the step at a byte, where it is the next one.
    fn pass(&mut self, from: u64)
        ensures first { self.new.first ≡ passed from self.old.first self.old.steps.now }
        ensures steps { self.new.steps.now ≡ behind from self.old.steps.now }
    {
        if let [step, steps @ ..] = self.steps {
            if step.from == from {
                self.first = step.first;
                self.steps = steps;
            }
        }
    }
}

/// Two lists of steps, as far as they are left.
#[derive(Drop)]
struct Merge<'s> {
    left: Cursor<'s>,
    right: Cursor<'s>,
}

impl<'s> Merge<'s> {
    ghost use Rattle.std.specs.Iterator.{YieldsFirstBy};
    ghost use Rattle.hii_questions.specs.code.Merging.{merge_left, next_from};

    // The byte of the next step.
    fn next_from(&self) -> Option<u64>
        ensures { result ≡ next_from self.now.left.steps.now self.now.right.steps.now }
    {
        match (self.left.steps, self.right.steps) {
            ([left, ..], [right, ..]) => Some(left.from.min(right.from)),
            ([left, ..], []) => Some(left.from),
            ([], [right, ..]) => Some(right.from),
            ([], []) => None,
        }
    }

    // Goes to the next step: from its byte on the lesser of both numbers.
    fn step(&mut self) -> Option<Step>
        ensures { YieldsFirstBy (λ step. step) merge_left self.old result self.new }
    {
        let from = self.next_from()?;
        self.left.pass(from);
        self.right.pass(from);
        let first = self.left.first.min(self.right.first);
        Some(Step { from, first })
    }
}

/// The steps that tell of each byte the lesser of the numbers that two lists tell.
pub(crate) fn merged(
    alloc: Global,
    left: &[Step],
    right: &[Step],
    none: usize,
) -> Result<Vec<Step>, AllocError>
    ensures least { IfOk result (λ steps. (at : ℕ) → value_at none steps.items at
        ≡ min (value_at none left.now at) (value_at none right.now at)) }
    ensures rise { IfOk result (λ steps. StepsRise 0 left.now → StepsRise 0 right.now
        → StepsRise 0 steps.items) }
{
    let mut merge = Merge {
        left: Cursor {
            first: none,
            steps: left,
        },
        right: Cursor {
            first: none,
            steps: right,
        },
    };
    let mut steps = Vec::with_capacity(alloc, left.len() + right.len())?;
    while let Some(step) = merge.step() {
        steps.push(step)?;
    }
    Ok(steps)
}

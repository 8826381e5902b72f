//! Fields that have bytes in common.

ghost use Rattle.std.specs.Prelude.{◌≡◌, ◌++◌, IfOk, OnOk, List};
ghost use Rattle.std.specs.List.{filter_map};
ghost use Rattle.ifr_nodes.specs.Nodes.{nodes_of};
ghost use Rattle.hii_questions.specs.Fields as fields;
ghost use Rattle.hii_questions.specs.code.Views.{question_view};
ghost use Rattle.check_audit.specs.Overlaps.{AreLaid, laid_of, laid_order, overlap_of, overlaps_among};
ghost use Rattle.check_audit.specs.declared.overlaps.Laid.{Laid};

use crate::warning::{Oddity, Sharing, Warning};
use hii_questions::{FieldEntry, Question, Questions};
use hii_values::FieldType;
use std::alloc::{AllocError, Global};

/// A question and its field.
#[derive(Clone, Copy)]
pub(crate) struct Laid {
    pub field: FieldEntry,
    pub place: u32,
    pub question: u16,
}

// One is held for each field of a form set.
const _: () = prove!(size_of::<Laid>() == 16);

impl Laid {
    // The question, if it has a field.
    fn of(question: Question<'_>) -> Option<Laid>
        ensures { result ≡ laid_of (question_view question.entry) }
    {
        let field = question.field()?;
        // As many bytes as its field has, of which no Type has many.
        let width = FieldType::of(question.statement())?.size();
        Some(Laid {
            field: FieldEntry {
                store: field.store,
                offset: field.offset,
                width: width as u32,
            },
            place: question.place(),
            question: question.id(),
        })
    }

    // A number that rises by store, then offset, then falling width.
    fn order(self) -> u64
        ensures { result ≡ laid_order self }
    {
        let width = u64::from(self.field.width.min(65_535));
        (u64::from(self.field.store) * 65_536 + u64::from(self.field.offset)) * 65_536
            + (65_535 - width)
    }
}

// The fields of a form set, by place.
fn fields_of(alloc: Global, questions: &Questions<'_>) -> Result<Vec<Laid>, AllocError>
    ensures { IfOk result (λ laid. laid.items
        ≡ filter_map laid_of (fields.questions (nodes_of questions.now.ifr))) }
{
    let mut laid = Vec::with_capacity(alloc, questions.count())?;
    let mut left = questions.all();
    while let Some(question) = left.next() {
        if let Some(one) = Laid::of(question) {
            laid.push(one)?;
        }
    }
    Ok(laid)
}

// The fields of a form set, by store, offset and falling width; of those that are the same, by place. What is kept of the questions is
// given back before they are put in order.
fn laid_fields(alloc: Global, questions: Questions<'_>) -> Result<Vec<Laid>, AllocError>
    ensures { IfOk result (λ laid. AreLaid (nodes_of questions.entry.ifr) laid.items) }
{
    let mut laid = fields_of(alloc, &questions)?;
    drop(questions);
    laid.sort_by_key(|one| one.order())?;
    Ok(laid)
}

// The warning of a field behind another one, if it shares bytes with it and is not the same.
fn overlap_of(before: Laid, next: Laid) -> Option<Warning>
    ensures { result ≡ overlap_of before next }
{
    if next.field == before.field || !next.field.range().meets(before.field.range()) {
        return None;
    }
    Some(Warning {
        place: next.place,
        oddity: Oddity::Overlap(Sharing {
            question: next.question,
            other: before.question,
        }),
    })
}

// Adds the questions whose fields share bytes with those before them.
fn add_among(laid: &[Laid], warnings: &mut Vec<Warning>) -> Result<(), AllocError>
    ensures { OnOk result (warnings.new.items ≡ warnings.old.items ++ overlaps_among laid.now) }
{
    let mut rest = laid;
    while let [before, next, ..] = rest {
        if let Some(warning) = overlap_of(*before, *next) {
            warnings.push(warning)?;
        }
        rest = &rest[1..];
    }
    Ok(())
}

/// Adds the questions whose fields share bytes with those before them, in the order of stores, offsets and falling widths.
pub(crate) fn add_overlaps(
    alloc: Global,
    questions: Questions<'_>,
    warnings: &mut Vec<Warning>,
) -> Result<(), AllocError>
    ensures { OnOk result ((laid : List Laid) × AreLaid (nodes_of questions.entry.ifr) laid
        × (warnings.new.items ≡ warnings.old.items ++ overlaps_among laid)) }
{
    let laid = laid_fields(alloc, questions)?;
    add_among(&laid, warnings)
}

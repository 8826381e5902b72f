//! Questions whose fields hold other bytes in some stores than in others.

ghost use Rattle.std.specs.Prelude.{◌≡◌, ◌+◌, filter, option_copied, slice_range};
ghost use Rattle.hii_bytes.specs.Watching.{Puts};
ghost use Rattle.ifr_nodes.specs.Nodes.{nodes_of};
ghost use Rattle.hii_varstore.specs.Stores.{bytes_of_field};
ghost use Rattle.hii_questions.specs.Changes.{holds_others};
ghost use Rattle.hii_questions.specs.Fields as fields;
ghost use Rattle.hii_questions.specs.code.Ranges.{range_in};
ghost use Rattle.hii_questions.specs.code.Views.{question_view};
ghost use Rattle.script_audit.specs.Apply as spec;

use crate::spelling::{put_back, put_front};
use audit_json::Telling;
use hii_bytes::Watched;
use hii_questions::{FieldRange, Question, Questions};
use hii_varstore::Stores;
use std::io::Write;

// Bytes from an offset on, so many of them as there are.
fn cut(bytes: &[u8], offset: usize, width: usize) -> &[u8]
    ensures { result.now ≡ slice_range bytes.now offset (offset + width) }
{
    let rest = match bytes.get(offset..) {
        Some(rest) => rest,
        None => return &[],
    };
    match rest.get(..width) {
        Some(front) => front,
        None => rest,
    }
}

// What stores hold in a field, if they have its store.
fn held<'s>(stores: &'s Stores, field: FieldRange) -> Option<&'s [u8]>
    ensures { option_copied result
        ≡ bytes_of_field stores.now (range_in field).store (range_in field).offset (range_in field).width }
{
    match stores.bytes(field.store) {
        Some(bytes) => Some(cut(bytes, usize::from(field.offset), field.width)),
        None => None,
    }
}

/// Whether the field of a question holds other bytes in other stores.
pub(crate) fn differs(question: Question<'_>, one: &Stores, other: &Stores) -> bool
    ensures { result ≡ holds_others one.now other.now (question_view question.entry) }
{
    let Some(field) = question.field() else {
        return false;
    };
    match (held(one, field), held(other, field)) {
        (Some(a), Some(b)) => a != b,
        _ => false,
    }
}

/// Whether the stores hold the same in the fields of all questions.
pub(crate) fn are_same(questions: &Questions<'_>, one: &Stores, other: &Stores) -> bool
    ensures { result ≡ spec.is_settled (filter (holds_others one.now other.now)
        (fields.questions (nodes_of questions.now.ifr))) }
{
    let mut left = questions.all();
    while let Some(question) = left.next() {
        if differs(question, one, other) {
            return false;
        }
    }
    true
}

// Writes the ids of the questions whose fields hold other bytes, by place, each behind a space.
fn put_ids<W: Write>(questions: &Questions<'_>, one: &Stores, other: &Stores, out: &mut Watched<W>)
    ensures { Puts W.contents out.old out.new (spec.ids_told (filter (holds_others one.now other.now)
        (fields.questions (nodes_of questions.now.ifr)))) }
{
    let mut left = questions.all();
    while let Some(question) = left.next() {
        if differs(question, one, other) {
            out.put(b" ");
            out.put_decimal(u64::from(question.id()));
        }
    }
}

/// Writes the questions that were not submitted.
pub(crate) fn put_unsubmitted<W: Write>(
    telling: Telling,
    questions: &Questions<'_>,
    one: &Stores,
    other: &Stores,
    out: &mut Watched<W>,
)
    ensures { Puts W.contents out.old out.new (spec.unsubmitted_told telling
        (filter (holds_others one.now other.now) (fields.questions (nodes_of questions.now.ifr)))) }
{
    put_front(telling, b"", b"error", b"text", out);
    out.put(b"not submitted:");
    put_ids(questions, one, other, out);
    put_back(telling, out);
}

//! The fields of questions in two sets of stores.

ghost use Rattle.std.specs.Prelude.{◌≡◌, filter};
ghost use Rattle.ifr_nodes.specs.Nodes.{nodes_of};
ghost use Rattle.hii_varstore.specs.Stores.{shape_of};
ghost use Rattle.hii_questions.specs.Changes.{field_bytes, holds_others};
ghost use Rattle.hii_questions.specs.Fields as fields;
ghost use Rattle.hii_questions.specs.code.LyingIn.{LieIn, LiesIn};
ghost use Rattle.hii_questions.specs.code.Views.{question_view};
ghost use Rattle.image_audit.specs.Difference.{given_from, with_given};

use hii_questions::{Question, Questions};
use hii_varstore::Stores;

/// Whether the field of a question holds other bytes in other stores.
pub(crate) fn differs(question: Question<'_>, stores: &Stores, others: &Stores) -> bool
    requires same { shape_of stores.now ≡ shape_of others.now }
    requires lies { LiesIn (shape_of stores.now) (question_view question) }
    ensures { result ≡ holds_others stores.now others.now (question_view question.entry) }
{
    match question.field() {
        Some(field) => stores.differs(others, field.store, usize::from(field.offset), field.width),
        None => false,
    }
}

// Gives the field of a question what other stores hold in it.
fn give_field(question: Question<'_>, source: &Stores, to: &mut Stores)
    requires same { shape_of to.old ≡ shape_of source.now }
    requires lies { LiesIn (shape_of source.now) (question_view question) }
    ensures given { to.new ≡ with_given to.old (question_view question.entry).field
        (field_bytes source.now (question_view question.entry).field) }
    ensures same { shape_of to.new ≡ shape_of source.now }
{
    if let Some(field) = question.field() {
        to.copy_range(source, field.store, usize::from(field.offset), field.width);
    }
}

/// Gives the field of each question that differs in two sets of stores what the second hold in it.
pub(crate) fn give_fields(questions: &Questions<'_>, one: &Stores, source: &Stores, to: &mut Stores)
    requires one { shape_of one.now ≡ shape_of source.now }
    requires same { shape_of to.old ≡ shape_of source.now }
    requires lie { LieIn (shape_of source.now) (fields.questions (nodes_of questions.now.ifr)) }
    ensures given { to.new ≡ given_from source.now to.old
        (filter (holds_others one.now source.now) (fields.questions (nodes_of questions.now.ifr))) }
    ensures same { shape_of to.new ≡ shape_of source.now }
{
    let mut left = questions.all();
    while let Some(question) = left.next() {
        if differs(question, one, source) {
            give_field(question, source, to);
        }
    }
}

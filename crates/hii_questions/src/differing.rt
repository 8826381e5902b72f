//! Whether questions hold other bytes in some stores than in others.

ghost use Rattle.std.specs.Prelude.{◌≡◌, ℕ, List};
ghost use Rattle.hii_varstore.specs.Stores.{shape_of};
ghost use Rattle.hii_questions.specs.Changes.{holds_others};
ghost use Rattle.hii_questions.specs.code.Entries.{entry_view};
ghost use Rattle.hii_questions.specs.code.LyingIn.{LiesIn};

use crate::entry::QuestionEntry;
use hii_varstore::Stores;

/// Whether the field of a question of which this is kept has other bytes in these stores.
pub(crate) fn differs(entry: QuestionEntry, one: &Stores, other: &Stores) -> bool
    requires same { shape_of one.now ≡ shape_of other.now }
    requires lies { (ifr : List ℕ) → LiesIn (shape_of one.now) (entry_view ifr entry) }
    ensures { (ifr : List ℕ) → result ≡ holds_others one.now other.now (entry_view ifr entry) }
{
    match entry.field {
        Some(field) => one.differs(
            other,
            field.store,
            usize::from(field.offset),
            field.width as usize,
        ),
        None => false,
    }
}

//! The questions of a form set with one field, one after the other.

ghost use Rattle.ifr_nodes.specs.Accepted.{IsAccepted};
ghost use Rattle.ifr_nodes.specs.code.Checked.{IsAccepted-prop};
ghost use Rattle.hii_questions.specs.code.ByField.{AreNumbers, AreNumbers-prop};
ghost use Rattle.hii_questions.specs.code.Entries.{AreQuestionEntries, AreQuestionEntries-prop};

use crate::entry::QuestionEntry;
use crate::question::Question;

/// The questions that are left of those of a form set with one field, by place.
#[derive(Drop)]
pub struct QuestionsWithField<'q, 'a> {
    pub(crate) ifr: &'a [u8],
    // All questions of the form set.
    pub(crate) entries: &'q [QuestionEntry],
    // The numbers among these of those that are left.
    pub(crate) numbers: &'q [u32],
    pub ghost accepted: { IsAccepted ifr.now } by { IsAccepted-prop ifr.now },
    pub ghost kept: { AreQuestionEntries ifr.now entries.now } by { AreQuestionEntries-prop ifr.now entries.now },
    pub ghost within: { AreNumbers entries.now numbers.now } by { AreNumbers-prop entries.now numbers.now },
}

impl<'q, 'a> QuestionsWithField<'q, 'a> {
    ghost use Rattle.std.specs.Prelude.{◌≡◌, map};
    ghost use Rattle.hii_questions.specs.code.ByField.{entries_at};
    ghost use Rattle.hii_questions.specs.code.Entries.{entry_view};
    ghost use Rattle.hii_questions.specs.code.Lists.{with_field_left};

    /// The questions of some numbers, of an accepted package of which these are kept.
    pub(crate) fn over(
        ifr: &'a [u8],
        entries: &'q [QuestionEntry],
        numbers: &'q [u32],
    ) -> QuestionsWithField<'q, 'a>
        requires accepted { IsAccepted ifr.now }
        requires kept { AreQuestionEntries ifr.now entries.now }
        requires within { AreNumbers entries.now numbers.now }
        ensures { with_field_left result
            ≡ map (entry_view ifr.entry.now) (entries_at entries.entry.now numbers.entry.now) }
    {
        QuestionsWithField {
            ifr,
            entries,
            numbers,
        }
    }
}

impl<'q, 'a> Iterator for QuestionsWithField<'q, 'a> {
    ghost use Rattle.std.specs.Iterator.{YieldsFirstBy, item_count};
    ghost use Rattle.hii_questions.specs.code.Views.{question_view};
    ghost use Rattle.hii_questions.specs.code.Lists.{with_field_left};

    type Item = Question<'a>;

    ghost next_gives = { YieldsFirstBy question_view with_field_left };

    ghost remaining = { item_count with_field_left };

    fn next(&mut self) -> Option<Question<'a>> {
        match self.numbers {
            [number, numbers @ ..] => {
                let question = Question::kept(self.ifr, self.entries[*number as usize]);
                self.numbers = numbers;
                Some(question)
            }
            [] => None,
        }
    }
}

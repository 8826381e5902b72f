//! Some questions of a form set, one after the other.

ghost use Rattle.ifr_nodes.specs.Accepted.{IsAccepted};
ghost use Rattle.ifr_nodes.specs.code.Checked.{IsAccepted-prop};
ghost use Rattle.hii_questions.specs.code.Entries.{AreQuestionEntries, AreQuestionEntries-prop};

use crate::entry::QuestionEntry;
use crate::question::Question;

/// The questions that are left of some of a form set, by place.
#[derive(Drop)]
pub struct QuestionsByPlace<'q, 'a> {
    pub(crate) ifr: &'a [u8],
    pub(crate) entries: &'q [QuestionEntry],
    pub ghost accepted: { IsAccepted ifr.now } by { IsAccepted-prop ifr.now },
    pub ghost kept: { AreQuestionEntries ifr.now entries.now } by { AreQuestionEntries-prop ifr.now entries.now },
}

impl<'q, 'a> QuestionsByPlace<'q, 'a> {
    ghost use Rattle.std.specs.Prelude.{◌≡◌, map};
    ghost use Rattle.hii_questions.specs.code.Entries.{entry_view};
    ghost use Rattle.hii_questions.specs.code.Lists.{questions_left};

    /// The questions of an accepted package of which these are kept.
    pub(crate) fn over(ifr: &'a [u8], entries: &'q [QuestionEntry]) -> QuestionsByPlace<'q, 'a>
        requires accepted { IsAccepted ifr.now }
        requires kept { AreQuestionEntries ifr.now entries.now }
        ensures { questions_left result ≡ map (entry_view ifr.entry.now) entries.entry.now }
    {
        QuestionsByPlace { ifr, entries }
    }
}

impl<'q, 'a> Iterator for QuestionsByPlace<'q, 'a> {
    ghost use Rattle.std.specs.Iterator.{YieldsFirstBy, item_count};
    ghost use Rattle.hii_questions.specs.code.Views.{question_view};
    ghost use Rattle.hii_questions.specs.code.Lists.{questions_left};

    type Item = Question<'a>;

    ghost next_gives = { YieldsFirstBy question_view questions_left };

    ghost remaining = { item_count questions_left };

    fn next(&mut self) -> Option<Question<'a>> {
        match self.entries {
            [entry, entries @ ..] => {
                let question = Question::kept(self.ifr, *entry);
                self.entries = entries;
                Some(question)
            }
            [] => None,
        }
    }
}

//! Defaults of questions, and texts.

use hii_languages::Languages;
use hii_questions::{Input, Questions};
use hii_varstore::Stores;
use ifr_defaults::{DEFAULT_CLASS_STANDARD, default_of};
use ifr_scopes::Forms;
use std::process::Abort;

pub(crate) fn a_default_is_told<'a>(
    rt: &impl Abort,
    forms: &Forms<'a>,
    questions: &Questions<'a>,
    stores: &Stores,
    languages: &Languages<'_>,
) {
    let question = questions.find(7).expect(rt, "question 7");
    let choice = languages.choose(b"en");
    assert!(rt; languages.text(choice, 3).chars().next() == Some('B'));
    let answers = questions.over(stores);
    let class = DEFAULT_CLASS_STANDARD;
    let default = default_of(question, class, &answers, forms, languages, choice);
    assert!(rt; matches!(default, Some(Input::Raw(1))));
}

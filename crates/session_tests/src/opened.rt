//! A form set is opened once, over stores and texts, and what is told of it is looked at part by part.

ghost use Rattle.std.specs.Prelude.{◌≡◌};
ghost use Rattle.ifr_nodes.specs.Accepted.{IsAccepted};

use crate::defaults::a_default_is_told;
use crate::forms::{first_form, read_forms, read_languages, read_questions, read_stores};
use crate::pages::page_is_shown;
use crate::policies::{conditions_are_found, conditions_decide, stores_decide};
use crate::questions::{questions_are_told, values_are_told};
use guard_policy::{Policy, Removed};
use hii_languages::Languages;
use hii_questions::Questions;
use hii_varstore::Stores;
use ifr_scopes::Forms;
use std::process::Abort;

fn decisions_and_pages_are_told<'a, R: Abort + AllocGlobal>(
    rt: &R,
    forms: &Forms<'a>,
    questions: &Questions<'a>,
    stores: &Stores,
    languages: &Languages<'a>,
)
    requires accepted { IsAccepted forms.now }
    requires together { questions.now.ifr ≡ forms.now }
{
    let removed = Removed::at_open(rt.alloc(), forms, questions, stores).expect(rt, "guards");
    let policy = Policy::new(forms, questions, &removed);
    let form = first_form(forms).expect(rt, "a form");
    stores_decide(rt, policy, questions, stores, form);
    conditions_decide(rt, policy, questions, form);
    conditions_are_found(rt, policy, stores);
    page_is_shown(rt, form, policy, questions, stores, languages);
}

#[test]
fn a_form_set_is_opened(rt: HostRuntime) {
    let forms = read_forms(rt.alloc()).expect(&rt, "a form set");
    let questions = read_questions(rt.alloc(), &forms).expect(&rt, "questions");
    let stores = read_stores(rt.alloc(), &forms).expect(&rt, "stores");
    let languages = read_languages(rt.alloc()).expect(&rt, "languages");
    questions_are_told(&rt, &questions);
    values_are_told(&rt, &questions, &stores);
    a_default_is_told(&rt, &forms, &questions, &stores, &languages);
    decisions_and_pages_are_told(&rt, &forms, &questions, &stores, &languages);
}

//! Defaults of a class over stores.

ghost use Rattle.std.specs.Prelude.{◌≡◌, ◌<◌, ◌≤◌, ◌^◌, ℕ, Option, IfSome, filter, length, option_map};
ghost use Rattle.ifr_nodes.specs.Nodes.{nodes_of};
ghost use Rattle.hii_varstore.specs.Stores.{shape_of};
ghost use Rattle.hii_values.specs.code.Offers.{offer_of};
ghost use Rattle.hii_questions.specs.Fields.{Field as Lying, questions as questions_of};
ghost use Rattle.hii_questions.specs.code.LyingIn.{LiesIn, LieIn};
ghost use Rattle.hii_questions.specs.code.Offers.{IsGiven};
ghost use Rattle.hii_questions.specs.code.Views.{question_node, question_view};
ghost use Rattle.ifr_defaults.specs.Defaults.{default_of};
ghost use Rattle.laid_defaults.specs.Laying as spec;
ghost use Rattle.laid_defaults.specs.code.Views.{counted, setup_view};

use crate::setup::Setup;
use hii_questions::{Input, Question, Questions, check_value};
use hii_varstore::Stores;
use ifr_defaults::{DefaultSource, default_of, default_source};
use ifr_opcodes::TYPE_OTHER;

// There are no more questions than a number can count.
fn are_few(questions: &Questions<'_>)
    ensures { length (questions_of (nodes_of questions.now.ifr)) < 2 ^ 64 }
{
    let _ = questions.count();
}

// Whether a VALUE gives the default of a question.
fn is_computed(question: Question<'_>, class: u16) -> bool
    ensures { result ≡ spec.is_computed class (question_view question.entry) }
{
    match default_source(question.statement(), class) {
        Some(DefaultSource::Opcode(default)) => default.op().kind() == TYPE_OTHER,
        Some(DefaultSource::Flags(_)) | None => false,
    }
}

// Whether the default of a question is one of these: of a VALUE, or constant.
fn is_of(computed: bool, question: Question<'_>, class: u16) -> bool
    ensures { result ≡ spec.is_of computed class (question_view question.entry) }
{
    if computed {
        is_computed(question, class)
    } else {
        !is_computed(question, class)
    }
}

// The default of a question over stores.
fn offered<'a>(
    setup: Setup<'a, '_>,
    class: u16,
    question: Question<'a>,
    stores: &Stores,
) -> Option<Input<'a>>
    ensures value { option_map offer_of result ≡ default_of
        (spec.sources_over (setup_view setup.entry) stores.now) (question_node question.entry) class }
    ensures given { IfSome result (λ input. (field : Option Lying) → IsGiven field input) }
{
    let answers = setup.questions.over(stores);
    default_of(
        question,
        class,
        &answers,
        setup.forms,
        setup.languages,
        setup.choice,
    )
}

// Lays the default of a question over stores, and tells whether there is one that the question takes.
fn lay_one<'a>(
    setup: Setup<'a, '_>,
    class: u16,
    question: Question<'a>,
    stores: &mut Stores,
) -> bool
    requires { LiesIn (shape_of stores.old) (question_view question) }
    ensures shape { shape_of stores.new ≡ shape_of stores.old }
    ensures laid { (count : ℕ) → spec.laid_one (setup_view setup.entry) class
        (record { stores = stores.old; count = count }) (question_view question.entry)
        ≡ record { stores = stores.new; count = counted count result } }
{
    let Some(input) = offered(setup, class, question, stores) else {
        return false;
    };
    match check_value(question, input) {
        Ok(field) => {
            field.put(stores);
            true
        }
        Err(_) => false,
    }
}

// Lays the defaults that are constant or those of a VALUE over stores, one after the other by place, and tells how many they are.
fn lay_each<'a>(setup: Setup<'a, '_>, class: u16, computed: bool, stores: &mut Stores) -> usize
    requires { LieIn (shape_of stores.old) (questions_of (nodes_of setup.forms.now)) }
    ensures shape { shape_of stores.new ≡ shape_of stores.old }
    ensures laid { spec.laid_each (setup_view setup.entry) class
        (record { stores = stores.old; count = 0 })
        (filter (spec.is_of computed class) (questions_of (nodes_of setup.entry.forms.now)))
        ≡ record { stores = stores.new; count = result } }
    ensures few { result ≤ length (filter (spec.is_of computed class) (questions_of (nodes_of setup.entry.forms.now))) }
{
    are_few(setup.questions);
    let mut count = 0;
    let mut left = setup.questions.all();
    while let Some(question) = left.next() {
        if is_of(computed, question, class) && lay_one(setup, class, question, stores) {
            count += 1;
        }
    }
    count
}

/// Lays the defaults of a class, by its number, over stores, by place, first the constant ones, then those of a VALUE, each over
/// what the others left, and tells how many were taken.
pub fn lay_defaults(setup: Setup<'_, '_>, class: u16, stores: &mut Stores) -> usize
    requires { LieIn (shape_of stores.old) (questions_of (nodes_of setup.forms.now)) }
    ensures shape { shape_of stores.new ≡ shape_of stores.old }
    ensures laid { spec.laid (setup_view setup.entry) class stores.old
        ≡ record { stores = stores.new; count = result } }
{
    are_few(setup.questions);
    let constants = lay_each(setup, class, false, stores);
    constants + lay_each(setup, class, true, stores)
}

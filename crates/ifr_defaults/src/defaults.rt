//! The default of a question.

ghost use Rattle.std.specs.Prelude.{◌≡◌, Option, option_map, IfSome};
ghost use Rattle.ifr_scopes.specs.code.Lists.{statement_node};
ghost use Rattle.ifr_scopes.specs.code.Parts.{default_node};
ghost use Rattle.hii_values.specs.code.Offers.{offer_of};
ghost use Rattle.hii_questions.specs.Fields.{Field};
ghost use Rattle.hii_questions.specs.code.Offers.{IsGiven};
ghost use Rattle.hii_questions.specs.code.Views.{question_node};
ghost use Rattle.hii_languages.specs.code.Views.{choice_of};
ghost use Rattle.ifr_defaults.specs.Defaults as spec;
ghost use Rattle.ifr_defaults.specs.code.DefaultSources.{IsSource, gives};
ghost use Rattle.ifr_defaults.specs.code.Views.{sources_of};

use crate::flags::flagged;
use crate::given::given;
use hii_languages::{Choice, Languages};
use hii_questions::{Input, Question};
use ifr_expr::Answers;
use ifr_scopes::{DefaultView, Forms, Statement};

// The first DEFAULT of a question for a class.
fn default_with<'a>(statement: Statement<'a>, class: u16) -> Option<DefaultView<'a>>
    ensures { option_map default_node result
        ≡ spec.default_with (statement_node statement.entry) class }
{
    if !statement.op().op.scope {
        return None;
    }
    for default in statement.defaults() {
        if default.op().id() == class {
            return Some(default);
        }
    }
    None
}

/// What gives the default of a question for a class of defaults (UEFI 2.8, 33.2.5.8 Defaults).
#[derive(Clone, Copy)]
pub enum DefaultSource<'a> {
    /// The first DEFAULT of the class by place.
    Opcode(DefaultView<'a>),
    /// Flags, with the bits that they give.
    Flags(u64),
}

/// What gives the default of a statement for a class of defaults (UEFI 2.8, 33.2.5.8 Defaults), found without any store:
/// the first DEFAULT of the class by place; where there is none, flags, with the value of the first option of a ONE_OF
/// that is flagged for the class, or with 1 for a CHECKBOX that is (own rule).
pub fn default_source<'a>(statement: Statement<'a>, class: u16) -> Option<DefaultSource<'a>>
    ensures { IsSource (statement_node statement.entry) class result }
{
    match default_with(statement, class) {
        Some(default) => Some(DefaultSource::Opcode(default)),
        None => Some(DefaultSource::Flags(flagged(statement, class)?)),
    }
}

impl<'a> DefaultSource<'a> {
    /// The default of a question that it gives: what a DEFAULT gives, even if that is nothing, or the bits of flags.
    pub fn input<'v, A: Answers<'v>>(
        self,
        question: Question<'a>,
        answers: &A,
        forms: &Forms<'a>,
        languages: &Languages<'a>,
        choice: Choice,
    ) -> Option<Input<'a>>
    where
        'a: 'v,
        ensures value { option_map offer_of result ≡ gives
            (sources_of forms.now (A.answers answers.now) languages.now (choice_of choice))
            (question_node question.entry) self.entry }
        ensures given { IfSome result (λ input. (field : Option Field) → IsGiven field input) }
    {
        match self {
            DefaultSource::Opcode(default) => {
                given(question, default, answers, forms, languages, choice)
            }
            DefaultSource::Flags(bits) => Some(Input::Raw(bits)),
        }
    }
}

/// The default of a question for a class of defaults (UEFI 2.8, 33.2.5.8 Defaults): what the first DEFAULT of the class by place
/// gives, even if that is nothing; where there is none, what flags give: the value of the first option of a ONE_OF that is
/// flagged for the class, or 1 for a CHECKBOX that is (own rule).
pub fn default_of<'a: 'v, 'v, A: Answers<'v>>(
    question: Question<'a>,
    class: u16,
    answers: &A,
    forms: &Forms<'a>,
    languages: &Languages<'a>,
    choice: Choice,
) -> Option<Input<'a>>
    ensures value { option_map offer_of result ≡ spec.default_of
        (sources_of forms.now (A.answers answers.now) languages.now (choice_of choice))
        (question_node question.entry) class }
    ensures given { IfSome result (λ input. (field : Option Field) → IsGiven field input) }
{
    let source = default_source(question.statement(), class)?;
    source.input(question, answers, forms, languages, choice)
}

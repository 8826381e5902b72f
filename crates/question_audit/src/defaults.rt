//! The defaults of questions.

ghost use Rattle.std.specs.Prelude.{◌≡◌, IfSome, Option, option_map};
ghost use Rattle.hii_bytes.specs.Watching.{Puts};
ghost use Rattle.ifr_defaults.specs.Defaults.{default_of};
ghost use Rattle.hii_values.specs.code.Offers.{offer_of};
ghost use Rattle.hii_questions.specs.Fields.{Field as Lying};
ghost use Rattle.hii_questions.specs.code.LyingIn.{LiesIn};
ghost use Rattle.hii_questions.specs.code.Offers.{IsGiven};
ghost use Rattle.hii_questions.specs.code.Views.{question_node, question_view};
ghost use Rattle.hii_varstore.specs.Stores.{shape_of};
ghost use Rattle.question_audit.specs.ScriptValues.{behind, default_value};
ghost use Rattle.question_audit.specs.code.Pages.{audited};
ghost use Rattle.question_audit.specs.code.Taking.{DifferIn, HasTaken};

use crate::script_values::put_script_value;
use form_page::Page;
use guard_policy::Conditions;
use hii_bytes::Watched;
use hii_questions::{Field, Input, Question, check_value, read_value};
use hii_varstore::Stores;
use ifr_defaults::default_of;
use std::io::Write;

// The default of a question for a class.
fn offered<'a, C: Conditions>(
    page: Page<'a, '_, C>,
    question: Question<'a>,
    class: u16,
) -> Option<Input<'a>>
    ensures value { option_map offer_of result
        ≡ default_of (audited page.entry).sources (question_node question.entry) class }
    ensures given { IfSome result (λ input. (field : Option Lying) → IsGiven field input) }
{
    let answers = page.questions().over(page.stores());
    default_of(
        question,
        class,
        &answers,
        page.policy().forms(),
        page.languages(),
        page.choice(),
    )
}

/// Gives a question its default for a class, by the class's number, in stores that hold the same as those of the page, where there is
/// one that the question takes, and tells the field that has new bytes: it alone differs. `give_back` makes the stores the same again.
pub fn take_default<'a, C: Conditions>(
    page: Page<'a, '_, C>,
    question: Question<'a>,
    class: u16,
    spare: &mut Stores,
) -> Option<Field<'a>>
    requires same { spare.old ≡ page.stores.now }
    requires lies { LiesIn (shape_of page.stores.now) (question_view question) }
    ensures { HasTaken (audited page.entry) (question_view question.entry) class spare.new result }
{
    let input = offered(page, question, class)?;
    let Ok(field) = check_value(question, input) else {
        return None;
    };
    field.put(spare);
    Some(field)
}

/// Gives back the bytes of a field in which stores differ from those of the page, so that they hold the same again.
pub fn give_back<C: Conditions>(page: Page<'_, '_, C>, field: Field<'_>, spare: &mut Stores)
    requires { DifferIn page.stores.now spare.old field }
    ensures { spare.new ≡ page.entry.stores.now }
{
    spare.copy_range(
        page.stores(),
        field.store,
        usize::from(field.offset),
        field.width,
    );
}

/// Writes the default of a question for a class behind another text, where there is one that the question takes. `spare` are stores
/// that hold the same as those of the page, before and after.
pub(crate) fn put_default<'a, C: Conditions, W: Write>(
    page: Page<'a, '_, C>,
    question: Question<'a>,
    class: u16,
    before: &[u8],
    spare: &mut Stores,
    out: &mut Watched<W>,
)
    requires same { spare.old ≡ page.stores.now }
    requires lies { LiesIn (shape_of page.stores.now) (question_view question) }
    ensures same { spare.new ≡ page.entry.stores.now }
    ensures text { Puts W.contents out.old out.new
        (behind before.now
        (default_value (audited page.entry) (question_view question.entry) class)) }
{
    if let Some(field) = take_default(page, question, class, spare) {
        let value = read_value(question, spare);
        put_script_value::<C, W>(before, question.statement(), value, out);
        give_back(page, field, spare);
    }
}

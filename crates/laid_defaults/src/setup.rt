//! A form set with its texts.

ghost use Rattle.std.specs.Prelude.{◌≡◌};

use hii_languages::{Choice, Languages};
use hii_questions::Questions;
use ifr_scopes::Forms;

/// A form set with the texts of its list, of which those of one language are chosen.
#[derive(Clone, Copy)]
pub struct Setup<'a, 's> {
    pub forms: &'s Forms<'a>,
    pub questions: &'s Questions<'a>,
    pub languages: &'s Languages<'a>,
    pub choice: Choice,
    pub ghost one: { questions.now.ifr ≡ forms.now },
}

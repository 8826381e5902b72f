//! What defaults are found from.

ghost use Rattle.std.specs.Prelude.{◌≡◌};
ghost use Rattle.guard_policy.specs.code.Views.{bytes_of};

use guard_policy::Policy;
use hii_languages::{Choice, Languages};
use hii_questions::Questions;

/// What the defaults of the questions of a package are found from, beside the stores.
#[derive(Clone, Copy)]
pub(crate) struct Sources<'a, 's> {
    pub(crate) policy: Policy<'a, 's>,
    pub(crate) questions: &'s Questions<'a>,
    pub(crate) languages: &'s Languages<'a>,
    pub(crate) language: Choice,
    pub ghost together: { questions.now.ifr ≡ bytes_of policy },
}

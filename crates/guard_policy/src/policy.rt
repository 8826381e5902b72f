//! What a policy decides over.

ghost use Rattle.std.specs.Prelude.{◌≡◌, if◌then◌else◌, Some, None, option_map};
ghost use Rattle.hii_bytes.specs.Numbers.{AreBytes};
ghost use Rattle.ifr_opcodes.specs.Rows.{is_among};
ghost use Rattle.ifr_nodes.specs.Accepted.{IsAccepted};
ghost use Rattle.ifr_nodes.specs.code.Checked.{IsAccepted-prop};
ghost use Rattle.ifr_nodes.specs.code.Checked.{IsNodeOf};
ghost use Rattle.ifr_scopes.specs.code.Lists.{statement_node};
ghost use Rattle.ifr_nodes.specs.Nodes.{nodes_of, is_question};
ghost use Rattle.hii_questions.specs.Fields.{asked};
ghost use Rattle.hii_questions.specs.code.Views.{question_view};
ghost use Rattle.guard_policy.specs.code.Bytes.{AreBytes-prop};

use crate::removed::Removed;
use hii_bytes::laws::are_bytes;
use hii_questions::{Question, Questions};
use ifr_scopes::{Forms, Statement};

/// Decides what is seen, what may be changed and what may be submitted (UEFI 2.8, 33.2.5.10 Forms Processing), over stores that
/// each call names. The forms, the questions and what was removed are of one package.
#[derive(Clone, Copy)]
pub struct Policy<'a, 's> {
    pub(crate) forms: &'s Forms<'a>,
    pub(crate) questions: &'s Questions<'a>,
    pub(crate) removed: &'s Removed,
    pub ghost together: { questions.now.ifr ≡ forms.now },
    pub ghost accepted: { IsAccepted forms.now } by { IsAccepted-prop forms.now },
    pub ghost small: { AreBytes forms.now } by { AreBytes-prop forms.now },
}

impl<'a, 's> Policy<'a, 's> {
    /// The policy of a form set from which this was removed.
    pub fn new(
        forms: &'s Forms<'a>,
        questions: &'s Questions<'a>,
        removed: &'s Removed,
    ) -> Policy<'a, 's>
        requires { questions.now.ifr ≡ forms.now }
        ensures forms { result.forms.now ≡ forms.now }
        ensures removed { result.removed.now ≡ removed.now }
    {
        // The package is accepted.
        are_bytes(forms.bytes());
        Policy {
            forms,
            questions,
            removed,
        }
    }

    /// The form set over which it decides.
    pub fn forms(self) -> &'s Forms<'a>
        ensures { result.now ≡ self.entry.forms.now }
    {
        self.forms
    }

    /// The questions of the form set.
    pub fn questions(self) -> &'s Questions<'a>
        ensures { result.now ≡ self.entry.questions.now }
    {
        self.questions
    }

    /// Whether the DISABLE_IF at a place, in bytes from the header of the forms package, was removed when the form set was
    /// opened, with all that stands in its scope.
    pub fn removed(self, place: u32) -> bool
        ensures { result ≡ is_among place self.entry.removed.now }
    {
        self.removed.has(place)
    }

    /// The question that a statement of the package is, if it is one.
    #[inline(always)]
    pub fn question(&self, statement: Statement<'a>) -> Option<Question<'a>>
        requires { IsNodeOf self.now.forms.now (statement_node statement) }
        ensures { option_map question_view result
            ≡ (if is_question (statement_node statement.entry)
            then Some (asked (nodes_of self.now.forms.now) (statement_node statement.entry))
            else None) }
    {
        self.questions.of_statement(statement)
    }
}

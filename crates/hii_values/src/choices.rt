//! The options of a question.

ghost use Rattle.std.specs.Prelude.{◌≡◌};
ghost use Rattle.ifr_nodes.specs.code.Checked.{IsNodeOf};
ghost use Rattle.ifr_scopes.specs.code.Lists.{statement_node};
ghost use Rattle.hii_values.specs.Inputs.{is_offered, offered};
ghost use Rattle.hii_values.specs.code.ChoiceViews.{choice_values};

use crate::option_table::OptionTable;
use ifr_scopes::Statement;

/// What a question lets choose from: the values of its options.
#[derive(Clone, Copy)]
pub(crate) struct Choices<'a> {
    pub(crate) question: Statement<'a>,
}

impl<'a> Choices<'a> {
    /// The value of an option that a number is. Of a question with many options it is found by a table of its package.
    #[inline(always)]
    pub(crate) fn value_in(self, table: &OptionTable<'_>, number: i128) -> Option<u64>
        requires { IsNodeOf table.now (statement_node self.question) }
        ensures { result ≡ offered (choice_values self.entry) number }
    {
        if let Ok(value) = u64::try_from(number) {
            if let Some(found) = table.with(self.question.place(), value) {
                return if found.places.is_empty() {
                    None
                } else {
                    Some(value)
                };
            }
        }
        self.value(number)
    }

    /// The value of an option that a number is.
    pub(crate) fn value(self, number: i128) -> Option<u64>
        ensures { result ≡ offered (choice_values self.entry) number }
    {
        for option in self.question.options() {
            let value = option.op().value();
            if i128::from(value) == number {
                return Some(value);
            }
        }
        None
    }

    /// Whether an option has this value.
    pub(crate) fn offer(self, value: u64) -> bool
        ensures { result ≡ is_offered (choice_values self.entry) value }
    {
        self.value(i128::from(value)).is_some()
    }
}

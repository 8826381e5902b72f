//! The conditions around the options of questions.

ghost use Rattle.ifr_nodes.specs.code.Checked.{AreNodesOf, AreNodesOf-prop};
ghost use Rattle.ifr_scopes.specs.code.OptionsLeft.{options_of_left};

use crate::around::{Around, next_around};
use hii_questions::Question;
use ifr_scopes::{Forms, Guard, OptionView, OptionsOf};

/// The guards around the options of a value on whose conditions it depends whether one of them may be chosen, those that are
/// left: option by option.
#[derive(Drop)]
pub(crate) struct OptionConditions<'a, 's> {
    forms: &'s Forms<'a>,
    options: OptionsOf<'s, 'a>,
    value: u64,
    around: Option<Around<'a, 's>>,
    pub ghost nodes: { AreNodesOf forms.now (options_of_left options) } by { AreNodesOf-prop forms.now (options_of_left options) },
}

impl<'a, 's> OptionConditions<'a, 's> {
    ghost use Rattle.std.specs.Prelude.{◌≡◌, ◌==◌, IfSome, filter};
    ghost use Rattle.std.specs.Iterator.{YieldsFirstBy};
    ghost use Rattle.std.specs.List.{flat_map};
    ghost use Rattle.ifr_opcodes.specs.Fields.{option_value};
    ghost use Rattle.ifr_nodes.specs.Accepted.{IsAccepted};
    ghost use Rattle.ifr_nodes.specs.code.Checked.{IsNodeOf};
    ghost use Rattle.ifr_scopes.specs.code.Lists.{guard_node};
    ghost use Rattle.ifr_nodes.specs.Nodes.{options};
    ghost use Rattle.ifr_scopes.specs.code.Parts.{option_node};
    ghost use Rattle.hii_questions.specs.code.Views.{question_node};
    ghost use Rattle.guard_policy.specs.code.AskedLeft.{options_of_value, around_options_left};
    ghost use Rattle.guard_policy.specs.laws.Support.{around};

    /// The conditions around the options of a question that have this value.
    pub(crate) fn of(
        forms: &'s Forms<'a>,
        question: Question<'a>,
        value: u64,
    ) -> OptionConditions<'a, 's>
        requires accepted { IsAccepted forms.now }
        requires node { IsNodeOf forms.now (question_node question) }
        ensures { around_options_left result
            ≡ flat_map around
            (filter (λ o. option_value o.op == value)
            (options (question_node question.entry))) }
    {
        let options = forms.options_of(question.statement());
        OptionConditions {
            forms,
            options,
            value,
            around: None,
        }
    }

    // Goes to the next option of the value.
    fn next_option(&mut self) -> Option<OptionView<'a>>
        ensures steps { YieldsFirstBy option_node options_of_value self.old result self.new }
        ensures of_package { IfSome result
            (λ option. IsNodeOf self.old.forms.now (option_node option)) }
        ensures stays { (self.new.forms ≡ self.old.forms) × (self.new.value ≡ self.old.value)
            × (self.new.around ≡ self.old.around) }
    {
        while let Some(option) = self.options.next() {
            if option.op().value() == self.value {
                return Some(option);
            }
        }
        None
    }

    /// Goes to the next.
    pub(crate) fn step(&mut self) -> Option<Guard<'a>>
        ensures { YieldsFirstBy guard_node around_options_left self.old result self.new }
    {
        loop {
            if let Some(guard) = next_around(&mut self.around) {
                return Some(guard);
            }
            let option = self.next_option()?;
            self.around = Some(Around::changing(self.forms, option.place()));
        }
    }
}

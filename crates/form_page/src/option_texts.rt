//! The options that are seen for values, and their texts.

ghost use Rattle.std.specs.Prelude.{◌≡◌, ◌==◌, ◌&&◌, is_none, option_map};
ghost use Rattle.ifr_opcodes.specs.Fields.{option_value};
ghost use Rattle.ifr_nodes.specs.Nodes.{options};
ghost use Rattle.ifr_scopes.specs.code.Parts.{option_node};
ghost use Rattle.guard_policy.specs.Policy.{hidden};
ghost use Rattle.ifr_nodes.specs.code.Checked.{IsNodeOf, IsNodeOf-prop};
ghost use Rattle.ifr_scopes.specs.code.Lists.{statement_node};
ghost use Rattle.hii_languages.specs.code.Views.{text_of};
ghost use Rattle.guard_policy.specs.code.Effects.{AreEffectsBy};
ghost use Rattle.guard_policy.specs.code.Views.{bytes_of};
ghost use Rattle.form_page.specs.code.PageViews.{texts_of, world_of};
ghost use Rattle.form_page.specs.code.SeenTexts.{TellTexts};
ghost use Rattle.form_page.specs.RowValues.{choice, option_with};

use crate::decisions::is_option_listed;
use crate::page::Page;
use crate::seen_texts::SeenTexts;
use guard_policy::{Conditions, Effects};
use hii_languages::Shown;
use hii_questions::StoredItems;
use ifr_scopes::{OptionView, Statement};
use std::alloc::AllocError;

// Whether an option has a value and is not hidden, with the denials of the guards that were asked last.
fn is_choice<'a, C: Conditions>(
    page: Page<'a, '_, C>,
    option: OptionView<'a>,
    value: u64,
    last: &mut Effects,
) -> bool
    requires node { IsNodeOf (bytes_of page.policy) (option_node option) }
    requires last { AreEffectsBy page.policy (C.holding page.conditions.now) last.old }
    ensures choice { result ≡ ((option_value (option_node option.entry).op == value)
        && is_none (hidden (world_of page.entry) (option_node option.entry))) }
    ensures last { AreEffectsBy page.entry.policy (C.holding page.entry.conditions.now) last.new }
{
    option.op().value() == value && is_option_listed(page, option, last)
}

/// The first option of a question, by place, that has a value and is not hidden.
pub fn seen_option<'a, C: Conditions>(
    page: Page<'a, '_, C>,
    statement: Statement<'a>,
    value: u64,
) -> Option<OptionView<'a>>
    requires { IsNodeOf (bytes_of page.policy) (statement_node statement) }
    ensures { option_map option_node result
        ≡ option_with (world_of page.entry) (options (statement_node statement.entry)) value }
{
    let mut last = Effects::none();
    let mut options = page.policy.forms().options_of(statement);
    while let Some(option) = options.next() {
        if is_choice(page, option, value, &mut last) {
            return Some(option);
        }
    }
    None
}

/// The text of the first option of a question, by place, that has a value and is not hidden.
pub(crate) fn option_text<'a, C: Conditions>(
    page: Page<'a, '_, C>,
    statement: Statement<'a>,
    value: u64,
) -> Option<Shown<'a>>
    requires { IsNodeOf (bytes_of page.policy) (statement_node statement) }
    ensures { option_map text_of result
        ≡ choice (texts_of page.entry) (world_of page.entry)
        (statement_node statement.entry) value }
{
    let option = seen_option(page, statement, value)?;
    Some(page.languages.text(page.choice, option.op().text()))
}

/// The text of the first option of a question, by place, that has a value and is not hidden, with the texts that were found for some
/// values.
pub(crate) fn text_among<'a, C: Conditions>(
    page: Page<'a, '_, C>,
    statement: Statement<'a>,
    value: u64,
    texts: &SeenTexts,
) -> Option<Shown<'a>>
    requires node { IsNodeOf (bytes_of page.policy) (statement_node statement) }
    requires told { TellTexts (world_of page) (options (statement_node statement)) texts.now }
    ensures { option_map text_of result
        ≡ choice (texts_of page.entry) (world_of page.entry)
        (statement_node statement.entry) value }
{
    if !texts.tells(value) {
        return option_text(page, statement, value);
    }
    let text = texts.find(value)?;
    Some(page.languages.text(page.choice, text))
}

/// The elements of a list that are left, each shown as the text of the option of its value.
pub struct Elements<'a, 's, C: Conditions> {
    pub(crate) page: Page<'a, 's, C>,
    pub(crate) statement: Statement<'a>,
    pub(crate) items: StoredItems<'s>,
    pub ghost together: { IsNodeOf (bytes_of page.policy) (statement_node statement) } by { IsNodeOf-prop (bytes_of page.policy) (statement_node statement) },
}

impl<'a, 's, C: Conditions> Copy for Elements<'a, 's, C> {}

impl<'a, 's, C: Conditions> Clone for Elements<'a, 's, C> {
    ghost use Rattle.std.specs.Prelude.{⊤};

    ghost is_clone = { λ elements clone. clone ≡ elements };

    ghost is_infallible = { λ _. ⊤ };

    fn clone(&self) -> Result<Elements<'a, 's, C>, AllocError> {
        Ok(*self)
    }
}

impl<'a, 's, C: Conditions> Elements<'a, 's, C> {
    ghost use Rattle.std.specs.Iterator.{YieldsFirstBy};
    ghost use Rattle.form_page.specs.code.Elements.{elements_left};

    /// Takes the first element: its text, unless no option of its value is to be seen.
    pub(crate) fn step(&mut self) -> Option<Option<Shown<'a>>>
        ensures { YieldsFirstBy (option_map text_of) elements_left self.old result self.new }
    {
        let value = self.items.step()?;
        Some(option_text(self.page, self.statement, value))
    }
}

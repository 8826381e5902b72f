//! The texts of the options that are seen for the elements of a list.

ghost use Rattle.std.specs.Prelude.{◌≡◌, ◌==◌, ◌&&◌, ◌||◌, ◌∷◌, ℕ, List, true};
ghost use Rattle.ifr_opcodes.specs.Forest.{Node};
ghost use Rattle.ifr_nodes.specs.Nodes.{options};
ghost use Rattle.ifr_nodes.specs.code.Checked.{IsNodeOf};
ghost use Rattle.ifr_scopes.specs.code.Lists.{statement_node};
ghost use Rattle.ifr_scopes.specs.code.Parts.{option_node};
ghost use Rattle.hii_values.specs.code.MetValues.{is_met, is_sought};
ghost use Rattle.guard_policy.specs.code.Effects.{AreEffectsBy};
ghost use Rattle.guard_policy.specs.code.Views.{bytes_of};
ghost use Rattle.form_page.specs.code.PageViews.{world_of};
ghost use Rattle.form_page.specs.code.SeenTexts.{AreFound, TellTexts, more_text, text_among};

use crate::decisions::is_option_listed;
use crate::page::Page;
use arrayvec::ArrayVec;
use guard_policy::{Conditions, Effects};
use hii_questions::{Items, MetValues, StoredItems};
use ifr_scopes::{OptionView, Statement};

// How many elements an ordered list has at most.
const MOST: usize = 255;

/// A value, and the string id of the text of an option that has it.
#[derive(Clone, Copy, Default)]
pub(crate) struct SeenText {
    pub(crate) value: u64,
    pub(crate) text: u16,
}

/// For some values the texts of the first options, by place, that have them and are not hidden.
#[derive(Drop)]
pub(crate) struct SeenTexts {
    // The values: those are met that have a text.
    pub(crate) values: MetValues,
    pub(crate) texts: ArrayVec<SeenText, MOST>,
    // Whether there was room for all texts.
    pub(crate) is_whole: bool,
}

impl SeenTexts {
    /// The texts for the values of some items, found in one walk over the options of a question.
    pub(crate) fn of<'a, C: Conditions>(
        page: Page<'a, '_, C>,
        statement: Statement<'a>,
        items: StoredItems<'_>,
    ) -> SeenTexts
        requires { IsNodeOf (bytes_of page.policy) (statement_node statement) }
        ensures { TellTexts (world_of page.entry) (options (statement_node statement.entry)) result }
    {
        let mut seen = SeenTexts {
            values: MetValues::of(Items::Stored(items)),
            texts: ArrayVec::new(),
            is_whole: true,
        };
        let mut last = Effects::none();
        let mut options = page.policy.forms().options_of(statement);
        while let Some(option) = options.next() {
            seen.add(page, option, &mut last);
        }
        seen
    }

    // Adds the text of an option, where it is the first that is seen for its value. The denials are those of the guards that were
    // asked last.
    fn add<'a, C: Conditions>(
        &mut self,
        page: Page<'a, '_, C>,
        option: OptionView<'a>,
        last: &mut Effects,
    )
        requires node { IsNodeOf (bytes_of page.policy) (option_node option) }
        requires last { AreEffectsBy page.policy (C.holding page.conditions.now) last.old }
        ensures found { (all rest : List Node)
            → AreFound (world_of page.entry) all (option_node option.entry ∷ rest) self.old
            → AreFound (world_of page.entry) all rest self.new }
        ensures last { AreEffectsBy page.entry.policy (C.holding page.entry.conditions.now) last.new }
    {
        let value = option.op().value();
        if self.values.lacks(value) && is_option_listed(page, option, last) {
            self.push(value, option.op().text());
        }
    }

    // Adds a text for a value, if there is room.
    fn push(&mut self, value: u64, text: u16)
        ensures whole { self.new.is_whole ≡ true → self.old.is_whole ≡ true }
        ensures sought { (v : ℕ) → is_sought self.new.values v ≡ is_sought self.old.values v }
        ensures met { (v : ℕ) → self.new.is_whole ≡ true → is_met self.new.values v
            ≡ (is_met self.old.values v || (is_sought self.old.values v && (value == v))) }
        ensures texts { (v : ℕ) → self.new.is_whole ≡ true → text_among self.new.texts.items v
            ≡ more_text (text_among self.old.texts.items v) value text v }
    {
        match self.texts.try_push(SeenText { value, text }) {
            Ok(()) => self.values.meet(value),
            Err(_) => self.is_whole = false,
        }
    }

    /// Whether it tells of a value.
    pub(crate) fn tells(&self, value: u64) -> bool
        ensures { result ≡ (self.now.is_whole && is_sought self.now.values value) }
    {
        self.is_whole && (self.values.has_met(value) || self.values.lacks(value))
    }

    /// The text for a value, if there is one.
    pub(crate) fn find(&self, value: u64) -> Option<u16>
        ensures { result ≡ text_among self.now.texts.items value }
    {
        for seen in self.texts.as_slice() {
            if seen.value == value {
                return Some(seen.text);
            }
        }
        None
    }
}

//! The characters of rows' values.

ghost use Rattle.std.specs.Prelude.{◌≡◌, ◌≤◌, ◌++◌, [], length, codes, option_map};
ghost use Rattle.ifr_opcodes.specs.declared.numbers.Display.TheVariants.{Hexadecimal as AsHexadecimal};
ghost use Rattle.std.specs.Iterator.{YieldsFirstBy};
ghost use Rattle.hii_languages.specs.code.Views.{text_of, chars_left};
ghost use Rattle.browser_rules.specs.Strings.{characters};
ghost use Rattle.sibt_strings.specs.code.Views.{units_in};
ghost use Rattle.form_page.specs.code.CharViews.{behind_text, texts_left, value_chars_left};
ghost use Rattle.form_page.specs.code.Elements.{elements_left};
ghost use Rattle.form_page.specs.code.Pieces.{ascii_left};
ghost use Rattle.form_page.specs.RowValues.{number_text, one_of_text, list_text, choice_text};

use crate::ascii_text::Ascii;
use crate::hex_digits::HexDigits;
use crate::option_texts::Elements;
use crate::row_value::Hexadecimal;
use guard_policy::Conditions;
use hii_languages::{Shown, ShownChars};
use sibt_strings::{UnitChars, Units};

/// What stands behind a text of the list.
#[derive_where(Clone, Copy)]
pub(crate) enum Behind<'a, 's, C: Conditions> {
    Nothing,
    Bracket,
    /// Elements of a list, each behind a comma and a space.
    Elements(Elements<'a, 's, C>),
}

/// The characters that are left of a row's value.
#[derive(Drop)]
pub struct RowValueChars<'a, 's, C: Conditions> {
    // The parts, one after the other.
    ascii: Ascii,
    hex: HexDigits,
    shown: ShownChars<'a>,
    units: UnitChars<'s>,
    behind: Behind<'a, 's, C>,
}

// The text of an option behind some characters, or a question mark behind others.
fn choice_parts<'a>(
    choice: Option<Shown<'a>>,
    front: &[u8],
    marked: &[u8],
) -> (Ascii, ShownChars<'a>)
    requires shown { length front.now ≤ 40 }
    requires missing { length marked.now ≤ 40 }
    requires mark { marked.now ≡ front.now ++ codes "?" }
    ensures { ascii_left result.0 ++ chars_left result.1 ≡ front.now
        ++ choice_text (option_map text_of choice.entry) }
{
    match choice {
        Some(text) => (Ascii::of(front), text.chars()),
        None => (Ascii::of(marked), Shown::Nothing.chars()),
    }
}

impl<'a, 's, C: Conditions> RowValueChars<'a, 's, C> {
    // These characters, the text of an option, and what stands behind it.
    fn new(
        ascii: Ascii,
        shown: ShownChars<'a>,
        behind: Behind<'a, 's, C>,
    ) -> RowValueChars<'a, 's, C>
        ensures { value_chars_left result ≡ ascii_left ascii
            ++ (chars_left shown.entry ++ behind_text behind.entry) }
    {
        RowValueChars {
            ascii,
            hex: HexDigits {
                number: 0,
                count: 0,
            },
            shown,
            units: Units::new(&[]).chars(),
            behind,
        }
    }

    /// These characters.
    pub(crate) fn ascii(ascii: Ascii) -> RowValueChars<'a, 's, C>
        ensures { value_chars_left result ≡ ascii_left ascii }
    {
        RowValueChars::new(ascii, Shown::Nothing.chars(), Behind::Nothing)
    }

    /// The hexadecimal digits of a number.
    pub(crate) fn hexadecimal(number: Hexadecimal) -> RowValueChars<'a, 's, C>
        ensures { value_chars_left result ≡ number_text AsHexadecimal number.width number.number }
    {
        RowValueChars {
            ascii: Ascii::of(b"0x"),
            hex: HexDigits {
                number: number.number,
                count: 2 * number.width as u32,
            },
            shown: Shown::Nothing.chars(),
            units: Units::new(&[]).chars(),
            behind: Behind::Nothing,
        }
    }

    /// A text of the list.
    pub(crate) fn shown(text: Shown<'a>) -> RowValueChars<'a, 's, C>
        ensures { value_chars_left result ≡ text_of text.entry }
    {
        RowValueChars::new(Ascii::empty(), text.chars(), Behind::Nothing)
    }

    /// A text of a store.
    pub(crate) fn units(units: Units<'s>) -> RowValueChars<'a, 's, C>
        ensures { value_chars_left result ≡ characters (units_in units.entry) }
    {
        RowValueChars {
            ascii: Ascii::empty(),
            hex: HexDigits {
                number: 0,
                count: 0,
            },
            shown: Shown::Nothing.chars(),
            units: units.chars(),
            behind: Behind::Nothing,
        }
    }

    /// The text of the option that is chosen, between angle brackets.
    pub(crate) fn one_of(option: Option<Shown<'a>>) -> RowValueChars<'a, 's, C>
        ensures { value_chars_left result ≡ one_of_text (option_map text_of option.entry) }
    {
        let (front, text) = choice_parts(option, b"<", b"<?");
        RowValueChars::new(front, text, Behind::Bracket)
    }

    /// The texts of elements, with a comma and a space between.
    pub(crate) fn list(elements: Elements<'a, 's, C>) -> RowValueChars<'a, 's, C>
        ensures { value_chars_left result ≡ list_text (elements_left elements.entry) }
    {
        let mut elements = elements;
        let Some(element) = elements.step() else {
            return RowValueChars::ascii(Ascii::empty());
        };
        let (front, text) = choice_parts(element, b"", b"?");
        RowValueChars::new(front, text, Behind::Elements(elements))
    }

    // Goes on behind the texts, of which nothing is left.
    fn step_behind(&mut self) -> Option<char>
        requires { texts_left self.old ≡ [] }
        ensures { YieldsFirstBy (λ c. c) value_chars_left self.old result self.new }
    {
        match self.behind {
            Behind::Nothing => None,
            Behind::Bracket => {
                self.behind = Behind::Nothing;
                Some('>')
            }
            Behind::Elements(elements) => {
                let mut elements = elements;
                let element = elements.step()?;
                let (front, text) = choice_parts(element, b" ", b" ?");
                *self = RowValueChars::new(front, text, Behind::Elements(elements));
                Some(',')
            }
        }
    }

    // Takes the first character of the texts.
    fn step_text(&mut self) -> Option<char>
        ensures text { YieldsFirstBy (λ c. c) texts_left self.old result self.new }
        ensures behind { self.new.behind ≡ self.old.behind }
    {
        if let Some(c) = self.ascii.step() {
            return Some(c);
        }
        if let Some(c) = self.hex.step() {
            return Some(c);
        }
        if let Some(c) = self.shown.next() {
            return Some(c);
        }
        self.units.next()
    }
}

impl<'a, 's, C: Conditions> Iterator for RowValueChars<'a, 's, C> {
    ghost use Rattle.std.specs.Iterator.{item_count};

    type Item = char;

    ghost next_gives = { YieldsFirstBy (λ c. c) value_chars_left };

    ghost remaining = { item_count value_chars_left };

    fn next(&mut self) -> Option<char> {
        if let Some(c) = self.step_text() {
            return Some(c);
        }
        self.step_behind()
    }
}

//! Texts of the list as they are shown.

ghost use Rattle.std.specs.Prelude.{◌≡◌, ◌∷◌, ◌++◌, decimal};

use arrayvec::ArrayVec;
use itoa::Buffer;
use sibt_strings::{UnitChars, Units};

/// What is shown of a string id (own rule; ids and texts are those of UEFI 2.8, 33.3.6 String Package).
#[derive(Clone, Copy, PartialEq, Eq)]
pub enum Shown<'a> {
    /// The string id 0.
    Nothing,
    /// A text of the list.
    Units(Units<'a>),
    /// No text has this string id: it shows as a number sign and the id in decimal.
    Missing(u16),
}

// A number sign and the id in decimal digits.
fn missing_text(id: u16) -> ArrayVec<u8, 6>
    ensures { result.items ≡ 35 ∷ decimal id }
{
    let mut text = ArrayVec::new();
    text.push(b'#');
    let mut buffer = Buffer::new();
    text.try_extend_from_slice(buffer.format(id).as_bytes())
        .unwrap();
    text
}

impl<'a> Shown<'a> {
    ghost use Rattle.hii_languages.specs.code.Views.{text_of, chars_left};

    /// The characters of the text.
    pub fn chars(self) -> ShownChars<'a>
        ensures { chars_left result ≡ text_of self.entry }
    {
        match self {
            Shown::Nothing => ShownChars::new(ArrayVec::new(), Units::new(&[])),
            Shown::Units(units) => ShownChars::new(ArrayVec::new(), units),
            Shown::Missing(id) => ShownChars::new(missing_text(id), Units::new(&[])),
        }
    }
}

/// The characters that are left of a shown text.
#[derive(Drop)]
pub struct ShownChars<'a> {
    // A missing text's number sign and digits, and which of them is next.
    missing: ArrayVec<u8, 6>,
    next: usize,
    units: UnitChars<'a>,
}

impl<'a> ShownChars<'a> {
    ghost use Rattle.browser_rules.specs.Strings.{characters};
    ghost use Rattle.sibt_strings.specs.code.Views.{units_in};
    ghost use Rattle.hii_languages.specs.code.Views.{chars_left};

    fn new(missing: ArrayVec<u8, 6>, units: Units<'a>) -> ShownChars<'a>
        ensures { chars_left result ≡ missing.items ++ characters (units_in units.entry) }
    {
        ShownChars {
            missing,
            next: 0,
            units: units.chars(),
        }
    }
}

impl<'a> Iterator for ShownChars<'a> {
    ghost use Rattle.std.specs.Iterator.{YieldsFirstBy, item_count};
    ghost use Rattle.hii_languages.specs.code.Views.{chars_left};

    type Item = char;

    ghost next_gives = { YieldsFirstBy (λ c. c) chars_left };

    ghost remaining = { item_count chars_left };

    fn next(&mut self) -> Option<char> {
        if let Some(byte) = self.missing.as_slice().get(self.next) {
            let c = char::from(*byte);
            self.next += 1;
            return Some(c);
        }
        self.units.next()
    }
}

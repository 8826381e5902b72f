//! Texts as 16-bit units.

ghost use Rattle.std.specs.Prelude.{◌≡◌, ◌%◌, length};
ghost use Rattle.std.specs.Option.{option_to_list};
ghost use Rattle.browser_rules.specs.Strings.{shown_unit};

/// The units of a text, two bytes each, the low byte first (UEFI 2.8, 33.2.6 Strings).
#[derive(Clone, Copy, PartialEq, Eq)]
pub struct Units<'a> {
    pub bytes: &'a [u8],
    pub ghost even: { length bytes.now % 2 ≡ 0 },
}

impl<'a> Units<'a> {
    ghost use Rattle.browser_rules.specs.Strings.{characters};
    ghost use Rattle.sibt_strings.specs.code.Views.{units_in, chars_left};

    /// The units that the bytes are, of which there is an even number.
    pub fn new(bytes: &'a [u8]) -> Units<'a>
        requires { length bytes.now % 2 ≡ 0 }
        ensures { units_in result ≡ bytes.entry.now }
    {
        Units { bytes }
    }

    /// The characters that are shown of the text (own rule): a unit of a surrogate as U+FFFD, a control as a space,
    /// 0xFFF0 to 0xFFF2 as nothing, any other unit as its character.
    pub fn chars(self) -> UnitChars<'a>
        ensures { chars_left result ≡ characters (units_in self.entry) }
    {
        UnitChars { rest: self.bytes }
    }
}

/// The characters that are left of a text.
#[derive(Clone, Drop)]
pub struct UnitChars<'a> {
    rest: &'a [u8],
}

// What is shown of one unit.
fn char_of(unit: u16) -> Option<char>
    ensures { option_to_list result ≡ shown_unit unit }
{
    match unit {
        0xfff0..=0xfff2 => None,
        0x0000..=0x001f | 0x007f..=0x009f => Some(' '),
        _ => Some(char::from_u32(u32::from(unit)).unwrap_or(char::REPLACEMENT_CHARACTER)),
    }
}

impl<'a> Iterator for UnitChars<'a> {
    ghost use Rattle.std.specs.Iterator.{YieldsFirstBy, item_count};
    ghost use Rattle.sibt_strings.specs.code.Views.{chars_left};

    type Item = char;

    ghost next_gives = { YieldsFirstBy (λ c. c) chars_left };

    ghost remaining = { item_count chars_left };

    fn next(&mut self) -> Option<char> {
        while let [low, high, rest @ ..] = self.rest {
            self.rest = rest;
            if let Some(c) = char_of(u16::from_le_bytes([*low, *high])) {
                return Some(c);
            }
        }
        None
    }
}

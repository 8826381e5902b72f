//! Short texts of ASCII characters, as numbers and marks, that are kept.

ghost use Rattle.std.specs.Prelude.{◌≡◌, ◌≤◌, if◌then◌else◌, [], codes, decimal, length};
ghost use Rattle.std.specs.Fmt.{signed_decimal};
ghost use Rattle.form_page.specs.RowValues.{checkbox_text, reference_text};

use arrayvec::ArrayVec;
use itoa::Buffer;

/// The most characters that are kept: those of a number of 128 bits, with its sign.
const MOST: usize = 40;

/// Characters of ASCII, of which some are left.
#[derive(Drop)]
pub(crate) struct Ascii {
    pub(crate) text: ArrayVec<u8, MOST>,
    pub(crate) next: usize,
}

impl Ascii {
    ghost use Rattle.std.specs.Iterator.{YieldsFirstBy};
    ghost use Rattle.form_page.specs.code.Pieces.{ascii_left};

    /// A text of these characters.
    pub(crate) fn of(text: &[u8]) -> Ascii
        requires { length text.now ≤ 40 }
        ensures { ascii_left result ≡ text.now }
    {
        let mut kept = ArrayVec::new();
        kept.try_extend_from_slice(text).unwrap();
        Ascii {
            text: kept,
            next: 0,
        }
    }

    /// No characters.
    pub(crate) fn empty() -> Ascii
        ensures { ascii_left result ≡ [] }
    {
        Ascii::of(b"")
    }

    /// An x for what is checked, and a space for what is not.
    pub(crate) fn checkbox(is_checked: bool) -> Ascii
        ensures { ascii_left result ≡ checkbox_text is_checked }
    {
        Ascii::of(&[if is_checked { b'x' } else { b' ' }])
    }

    /// Four stars for a password, and nothing where there is none.
    pub(crate) fn password(is_there: bool) -> Ascii
        ensures { ascii_left result ≡ (if is_there then codes "****" else []) }
    {
        let stars = if is_there { 4 } else { 0 };
        Ascii::of(&[b'*'; 4][..stars])
    }

    /// The word of a reset button.
    pub(crate) fn reset() -> Ascii
        ensures { ascii_left result ≡ codes "reset" }
    {
        Ascii::of(b"reset")
    }

    /// A number in decimal, with its sign where it is negative.
    pub(crate) fn signed(number: i128) -> Ascii
        ensures { ascii_left result ≡ signed_decimal number }
    {
        Ascii::of(Buffer::new().format(number).as_bytes())
    }

    /// A number in decimal.
    pub(crate) fn unsigned(number: u64) -> Ascii
        ensures { ascii_left result ≡ decimal number }
    {
        Ascii::of(Buffer::new().format(number).as_bytes())
    }

    /// An arrow, and the id of the form to which it leads.
    pub(crate) fn arrow(form: Option<u16>) -> Ascii
        ensures { ascii_left result ≡ reference_text form }
    {
        let mut text = ArrayVec::new();
        text.push(b'-');
        text.push(b'>');
        if let Some(form) = form {
            let mut buffer = Buffer::new();
            text.try_extend_from_slice(buffer.format(form).as_bytes())
                .unwrap();
        }
        Ascii { text, next: 0 }
    }

    /// Takes the first character that is left.
    pub(crate) fn step(&mut self) -> Option<char>
        ensures { YieldsFirstBy (λ c. c) ascii_left self.old result self.new }
    {
        let byte = *self.text.as_slice().get(self.next)?;
        self.next += 1;
        Some(char::from(byte))
    }
}

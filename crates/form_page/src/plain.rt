//! Characters of ASCII at the front of texts, which are shown as they are.

ghost use Rattle.std.specs.Prelude.{◌≡◌, IfSome};
ghost use Rattle.sibt_strings.specs.code.Views.{units_in};
ghost use Rattle.form_page.specs.code.Fronts as fronts;
ghost use Rattle.form_page.specs.code.Fronts.{Begins, Copies};

use sibt_strings::Units;

// Whether a byte is a character of ASCII and no control.
fn is_plain(byte: u8) -> bool
    ensures { result ≡ fronts.is_plain byte }
{
    matches!(byte, b' '..=b'~')
}

// The first character of a text, if it is of ASCII and no control, and the units behind it.
fn split_plain(text: Units<'_>) -> Option<(u8, Units<'_>)>
    ensures { IfSome result (λ split. Begins (units_in text.entry) split.0 (units_in split.1)) }
{
    match text.bytes {
        [byte, 0, rest @ ..] if is_plain(*byte) => Some((*byte, Units::new(rest))),
        _ => None,
    }
}

/// Copies the characters at the front of a text, as far as they are of ASCII and no controls and there is room. Answers how many
/// they are, and the units behind them.
pub(crate) fn copy_plain<'t>(text: Units<'t>, room: &mut [u8]) -> (usize, Units<'t>)
    ensures { Copies (units_in text.entry) room.old room.new result.0 (units_in result.1) }
{
    let mut rest = text;
    let mut count = 0;
    while count < room.len() {
        let Some((byte, behind)) = split_plain(rest) else {
            break;
        };
        room[count] = byte;
        rest = behind;
        count += 1;
    }
    (count, rest)
}

//! The words of a line.

ghost use Rattle.std.specs.Prelude.{◌≡◌, ◌&&◌, ◌<◌, ◌≤◌, filter, length, nat_lt, option_map};
ghost use Rattle.std.specs.Char.{is_digit};
ghost use Rattle.std.specs.List.{list_all, list_any};
ghost use Rattle.std.specs.Str.{bytes_eq};
ghost use Rattle.browser_rules.specs.Script.{cut_word};
ghost use Rattle.script_audit.specs.Words as spec;

use hii_bytes::{first_place, number_of_digits};

/// Whether a text is a word.
pub(crate) fn is_word(text: &[u8], word: &[u8]) -> bool
    ensures { result ≡ bytes_eq text.now word.now }
{
    text == word
}

// The bytes before the first space, and those behind it, where there is one.
fn split_word(text: &[u8]) -> (&[u8], Option<&[u8]>)
    ensures { cut_word text.now ≡ (result.0.now, option_map (λ rest. rest.now) result.1) }
{
    match first_place(text, b' ') {
        Some(end) => (&text[..end], Some(&text[end + 1..])),
        None => (text, None),
    }
}

/// The first word of a line.
pub(crate) fn first_word(text: &[u8]) -> &[u8]
    ensures { result.now ≡ spec.first_word text.now }
{
    split_word(text).0
}

/// The word behind the first one, or none.
pub(crate) fn second_word(text: &[u8]) -> &[u8]
    ensures { result.now ≡ spec.second_word text.now }
{
    match split_word(text).1 {
        Some(rest) => first_word(rest),
        None => &[],
    }
}

/// The last word of a line.
pub(crate) fn last_word(text: &[u8]) -> &[u8]
    ensures { result.now ≡ spec.last_word text.now }
{
    let mut word = text;
    let mut rest = text;
    while let [byte, behind @ ..] = rest {
        if *byte == b' ' {
            word = behind;
        }
        rest = behind;
    }
    word
}

/// How many spaces a line has.
pub(crate) fn space_count(text: &[u8]) -> usize
    ensures count { result ≡ spec.space_count text.now }
    ensures few { result ≤ length text.now }
{
    let mut count = 0;
    let mut rest = text;
    while let [byte, behind @ ..] = rest {
        if *byte == b' ' {
            count += 1;
        }
        rest = behind;
    }
    count
}

/// Whether a line has a tab.
pub(crate) fn has_tab(text: &[u8]) -> bool
    ensures { result ≡ list_any spec.is_tab text.now }
{
    text.iter().any(|byte| is_tab(*byte))
}

fn is_tab(byte: u8) -> bool
    ensures { result ≡ spec.is_tab byte }
{
    byte == b'\t'
}

/// Whether a line begins with a space.
pub(crate) fn begins_with_space(text: &[u8]) -> bool
    ensures { result ≡ spec.begins_with_space text.now }
{
    match text {
        [byte, ..] => *byte == b' ',
        [] => false,
    }
}

/// Whether a line ends with a space.
pub(crate) fn ends_with_space(text: &[u8]) -> bool
    ensures { result ≡ spec.ends_with_space text.now }
{
    match text.last() {
        Some(byte) => *byte == b' ',
        None => false,
    }
}

/// Whether a line has two spaces without anything between.
pub(crate) fn has_two_spaces(text: &[u8]) -> bool
    ensures { result ≡ spec.has_two_spaces text.now }
{
    let mut rest = text;
    while let [byte, behind @ ..] = rest {
        if *byte == b' ' && begins_with_space(behind) {
            return true;
        }
        rest = behind;
    }
    false
}

/// Whether a word is a number in decimal digits.
pub(crate) fn is_decimal(word: &[u8]) -> bool
    ensures { result ≡ spec.is_decimal word.now }
{
    !word.is_empty() && are_digits(word)
}

fn are_digits(word: &[u8]) -> bool
    ensures { result ≡ list_all (λ byte. is_digit byte 10) word.now }
{
    word.iter().all(|byte| is_decimal_digit(*byte))
}

fn is_decimal_digit(byte: u8) -> bool
    ensures { result ≡ is_digit byte 10 }
{
    char::from(byte).is_digit(10)
}

/// The number that a word writes in hex digits behind `0x`.
pub(crate) fn hexadecimal_in(word: &[u8]) -> Option<u64>
    ensures { result ≡ spec.hexadecimal_in word.now }
{
    let digits = word.strip_prefix(b"0x")?;
    number_of_digits(digits, 16, 16)
}

/// Whether decimal digits write a number above all ids.
pub(crate) fn is_too_great(word: &[u8]) -> bool
    ensures { result ≡ spec.is_too_great word.now }
{
    match number_of_digits(word, 10, 20) {
        Some(number) => number > 65_535,
        None => true,
    }
}

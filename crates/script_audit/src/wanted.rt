//! How many words commands have.

ghost use Rattle.std.specs.Prelude.{◌≡◌, map, option_map};
ghost use Rattle.std.specs.Char.{to_ascii_lowercase};
ghost use Rattle.script_audit.specs.Words as spec;
ghost use Rattle.script_audit.specs.code.WordCounts.{words_meant};

use crate::words::is_word;

/// How many words a command has, and whether the first behind its own is a number.
#[derive(Clone, Copy)]
pub(crate) struct Words {
    pub(crate) least: usize,
    pub(crate) most: usize,
    pub(crate) takes_number: bool,
}

fn words_of(least: usize, most: usize, takes_number: bool) -> Option<Words>
    ensures { option_map words_meant result ≡ spec.words_of least most takes_number }
{
    Some(Words {
        least,
        most,
        takes_number,
    })
}

/// How many words the command of a word has.
pub(crate) fn wanted_words(word: &[u8]) -> Option<Words>
    ensures { option_map words_meant result ≡ spec.wanted_words word.now }
{
    if is_word(word, b"set") {
        words_of(3, 3, true)
    } else if is_word(word, b"order") {
        words_of(2, 3, true)
    } else if is_word(word, b"text") {
        words_of(2, 4097, true)
    } else if is_numbered(word) {
        words_of(2, 2, true)
    } else if is_worded(word) {
        words_of(2, 2, false)
    } else if is_plain(word) {
        words_of(1, 1, false)
    } else {
        None
    }
}

// Whether the command of a word has a number.
fn is_numbered(word: &[u8]) -> bool
    ensures { result ≡ spec.is_numbered word.now }
{
    is_word(word, b"go")
        || is_word(word, b"press")
        || is_word(word, b"defaults")
        || is_word(word, b"why")
}

// Whether it has a word.
fn is_worded(word: &[u8]) -> bool
    ensures { result ≡ spec.is_worded word.now }
{
    is_word(word, b"lang") || is_word(word, b"extract") || is_word(word, b"route")
}

// Whether it stands alone.
fn is_plain(word: &[u8]) -> bool
    ensures { result ≡ spec.is_plain word.now }
{
    is_word(word, b"page")
        || is_word(word, b"back")
        || is_word(word, b"submit")
        || is_word(word, b"discard")
}

// Whether a word is this command, be its letters small or capital.
fn is_in_letters(word: &[u8], command: &[u8]) -> bool
    requires { map to_ascii_lowercase command.now ≡ command.now }
    ensures { result ≡ spec.is_in_letters word.now command.now }
{
    word.eq_ignore_ascii_case(command)
}

/// Whether a word is a command, be its letters small or capital.
pub(crate) fn is_in_capitals(word: &[u8]) -> bool
    ensures { result ≡ spec.is_in_capitals word.now }
{
    is_in_letters(word, b"set")
        || is_in_letters(word, b"order")
        || is_in_letters(word, b"text")
        || is_in_letters(word, b"go")
        || is_in_letters(word, b"press")
        || is_in_letters(word, b"defaults")
        || is_in_letters(word, b"why")
        || is_in_letters(word, b"lang")
        || is_in_letters(word, b"extract")
        || is_in_letters(word, b"route")
        || is_in_letters(word, b"page")
        || is_in_letters(word, b"back")
        || is_in_letters(word, b"submit")
        || is_in_letters(word, b"discard")
}

//! Why a line is no command, in words.

ghost use Rattle.hii_bytes.specs.Watching.{Puts};
ghost use Rattle.script_audit.specs.Sentences as spec;
ghost use Rattle.script_audit.specs.Words as line;
ghost use Rattle.script_audit.specs.code.WordCounts.{words_meant};

use crate::script::has_mark;
use crate::spelling::put_bytes;
use crate::wanted::{Words, is_in_capitals, wanted_words};
use crate::words::{
    begins_with_space, ends_with_space, first_word, has_tab, has_two_spaces, hexadecimal_in,
    is_decimal, is_too_great, is_word, last_word, second_word, space_count,
};
use audit_json::Telling;
use hii_bytes::Watched;
use std::io::Write;

// Writes that a word is no number.
fn put_no_number<W: Write>(telling: Telling, word: &[u8], out: &mut Watched<W>)
    ensures { Puts W.contents out.old out.new (spec.no_number telling word.now) }
{
    out.put(b"no number: ");
    put_bytes(telling, word, out);
}

// Writes what is wrong with a first number, or that the last word of the line is none.
fn put_decimal<W: Write>(telling: Telling, word: &[u8], last: &[u8], out: &mut Watched<W>)
    ensures { Puts W.contents out.old out.new (spec.decimal_text telling word.now last.now) }
{
    if !is_decimal(word) {
        put_no_number(telling, word, out);
    } else if is_too_great(word) {
        out.put(b"a number above 65535");
    } else {
        put_no_number(telling, last, out);
    }
}

// Writes the same, or that the first number is in hexadecimal.
fn put_number<W: Write>(telling: Telling, word: &[u8], last: &[u8], out: &mut Watched<W>)
    ensures { Puts W.contents out.old out.new
        (spec.number_text telling word.now last.now (line.hexadecimal_in word.now)) }
{
    match hexadecimal_in(word) {
        Some(number) => {
            out.put(b"a number in hexadecimal, where a decimal one is wanted: ");
            out.put_decimal(number);
        }
        None => put_decimal(telling, word, last, out),
    }
}

// Writes what is wrong with the words of a line that are as many as wanted.
fn put_arguments<W: Write>(telling: Telling, text: &[u8], takes_number: bool, out: &mut Watched<W>)
    ensures { Puts W.contents out.old out.new (spec.arguments_text telling text.now takes_number) }
{
    if takes_number {
        put_number(telling, second_word(text), last_word(text), out);
    } else if is_word(first_word(text), b"lang") {
        out.put(b"no language: ");
        put_bytes(telling, second_word(text), out);
    } else {
        put_no_number(telling, last_word(text), out);
    }
}

// Writes what is wrong with a line that begins with the word of a command.
fn put_words<W: Write>(telling: Telling, text: &[u8], words: Words, out: &mut Watched<W>)
    ensures { Puts W.contents out.old out.new (spec.words_text telling text.now (words_meant words)) }
{
    let count = space_count(text) + 1;
    if has_two_spaces(text) {
        out.put(b"two spaces, where one is wanted");
    } else if count < words.least {
        out.put(b"too few words");
    } else if words.most < count {
        out.put(b"too many words");
    } else {
        put_arguments(telling, text, words.takes_number, out);
    }
}

// Writes what is wrong with a line that neither begins nor ends with a space.
fn put_command<W: Write>(telling: Telling, text: &[u8], out: &mut Watched<W>)
    ensures { Puts W.contents out.old out.new
        (spec.command_text telling text.now (line.wanted_words (line.first_word text.now))) }
{
    let word = first_word(text);
    match wanted_words(word) {
        Some(words) => put_words(telling, text, words, out),
        None if is_in_capitals(word) => out.put(b"a command in capitals"),
        None => out.put(b"no command"),
    }
}

/// Writes why a line without its CR is no command: of the sentences that are so the first.
pub(crate) fn put_bad_command<W: Write>(telling: Telling, text: &[u8], out: &mut Watched<W>)
    ensures { Puts W.contents out.old out.new (spec.bad_command_text telling text.now) }
{
    if has_mark(text) {
        out.put(b"a byte order mark");
    } else if has_tab(text) {
        out.put(b"a tab, where one space is wanted");
    } else if begins_with_space(text) {
        out.put(b"a space at the beginning");
    } else if ends_with_space(text) {
        out.put(b"a space at the end");
    } else {
        put_command(telling, text, out);
    }
}

//! What a line asks for.

ghost use Rattle.std.specs.Prelude.{◌≡◌, ◌↔◌, ◌<◌, ◌==◌, [], Some, None, Ok, Err, IsTrue, MatchResult, IfOk, IfSome, option_map};
ghost use Rattle.std.specs.List.{list_all};
ghost use Rattle.std.specs.Str.{bytes_eq};
ghost use Rattle.browser_rules.specs.Script as script;
ghost use Rattle.browser_rules.specs.Script.{command_of, without_return};
ghost use Rattle.hii_bytes.specs.NumberList.{IsList, numbers_of};
ghost use Rattle.hii_commands.specs.Meaning.{HasList, command_meant, cause_meant, cause_of};
ghost use Rattle.hii_commands.specs.code.Reading as reading;
ghost use Rattle.hii_commands.specs.code.Reading.{command_in, set_in, order_in, text_in, list_in, is_one_word, why_in, go_in, press_in, defaults_in, numbered_in, worded_in, spaced_in, word_command, lang_in, plain_in, value_in, question_in, front_digits_in, front_question_in, default_class_in, row_number_in, cut_word};

use crate::limits::LINE_LIMIT;
use hii_bytes::{Cause, first_place, is_number_list, number_of_digits};

/// One command of a script.
#[derive(Clone, Copy, Debug, PartialEq, Eq)]
pub enum Command<'a> {
    /// `page`: the current form's page.
    Page,
    /// `set Q V`: the value of a question. The magnitude is below 2^64.
    Set { question: u16, value: i128 },
    /// `order Q list`, or `order Q` for the empty list: the elements of a question. The list is decimal numbers below
    /// 2^64 with a comma between, as `NumberList` takes it.
    Order { question: u16, list: &'a [u8] },
    /// `text Q rest`, or `text Q` for the empty text: the text of a question, all bytes after one space.
    Text { question: u16, text: &'a [u8] },
    /// `why Q`: what forbids a change of a question, if something does.
    Why(u16),
    /// `go Q`: the form to which a question that is a reference leads.
    Go(u16),
    /// `back`: the form before.
    Back,
    /// `press R`: the button in a row of the page, below 10^9.
    Press(u32),
    /// `defaults D`: the defaults of a class become the values of the questions.
    Defaults(u16),
    /// `extract T`: the committed stores as the configuration text that this request asks for. The text is one word.
    Extract(&'a [u8]),
    /// `route T`: the values of this configuration text become those of the questions. The text is one word.
    Route(&'a [u8]),
    /// `lang L`: the language of the texts that follow, 1 to 63 ASCII letters, digits and hyphens.
    Lang(&'a [u8]),
    /// `submit`: the working stores become the committed ones.
    Submit,
    /// `discard`: the committed stores become the working ones.
    Discard,
}

/// Why a line is no command.
#[derive(Clone, Copy, Debug, PartialEq, Eq)]
pub enum BadLine {
    /// The line has the form of no command.
    BadCommand,
    /// The line has more than 4,096 bytes.
    LineTooLong,
}

impl BadLine {
    /// The cause by which the line is refused.
    pub fn cause(self) -> Cause
        ensures { result ≡ cause_of self }
    {
        match self {
            BadLine::BadCommand => Cause::BadCommand,
            BadLine::LineTooLong => Cause::LineTooLong,
        }
    }
}

/// The command that a line without its LF is (own rule). One CR at its end belongs to its length and not to the command.
/// Refuses by LineTooLong a line of more than 4,096 bytes, the CR counted, and by BadCommand one that is no command, as
/// the empty line.
pub fn read_line(line: &[u8]) -> Result<Command<'_>, BadLine>
    ensures means { MatchResult result (λ command. command_of line.now ≡ Ok (command_meant command))
        (λ bad. command_of line.now ≡ Err (cause_meant bad)) }
    ensures list { IfOk result HasList }
{
    if line.len() > LINE_LIMIT {
        return Err(BadLine::LineTooLong);
    }
    match command_in(drop_return(line)) {
        Some(command) => Ok(command),
        None => Err(BadLine::BadCommand),
    }
}

/// Whether the line is empty or a CR alone (own rule): a script passes over it, and as a command it is refused.
pub fn is_blank(line: &[u8]) -> bool
    ensures { IsTrue result ↔ (without_return line.now ≡ []) }
{
    drop_return(line).is_empty()
}

// The line without the CR at its end, where there is one.
fn drop_return(line: &[u8]) -> &[u8]
    ensures { result.now ≡ without_return line.now }
{
    let count = line.len();
    if count > 0 && line[count - 1] == b'\r' {
        &line[..count - 1]
    } else {
        line
    }
}

#[tactic(auto, using(crate::proofs::FrontLemmas::spaced_text))]
fn command_in(text: &[u8]) -> Option<Command<'_>>
    ensures command { option_map command_meant result ≡ command_in text.now }
    ensures list { IfSome result HasList }
{
    // What scripts say most.
    if let Some(rest) = text.strip_prefix(b"set ") {
        return set_command(rest);
    }
    if let Some(rest) = text.strip_prefix(b"why ") {
        return why_command(rest);
    }
    match split_word(text) {
        (word, None) => plain_command(word),
        (word, Some(rest)) => spaced_command(word, rest),
    }
}

fn is_word(text: &[u8], word: &[u8]) -> bool
    ensures { result ≡ bytes_eq text.now word.now }
{
    text == word
}

// The bytes before the first space, and those after it where there is one.
fn split_word(text: &[u8]) -> (&[u8], Option<&[u8]>)
    ensures { cut_word text.now ≡ (result.0.now, option_map (λ rest. rest.now) result.1) }
{
    match first_place(text, b' ') {
        Some(end) => (&text[..end], Some(&text[end + 1..])),
        None => (text, None),
    }
}

fn plain_command(word: &[u8]) -> Option<Command<'_>>
    ensures command { option_map command_meant result ≡ plain_in word.now }
    ensures list { IfSome result HasList }
{
    if is_word(word, b"page") {
        Some(Command::Page)
    } else if is_word(word, b"back") {
        Some(Command::Back)
    } else if is_word(word, b"submit") {
        Some(Command::Submit)
    } else if is_word(word, b"discard") {
        Some(Command::Discard)
    } else {
        None
    }
}

// The command of a word other than `set` that a space follows.
fn spaced_command<'a>(word: &[u8], rest: &'a [u8]) -> Option<Command<'a>>
    ensures command { option_map command_meant result ≡ spaced_in word.now rest.now }
    ensures list { IfSome result HasList }
{
    if is_word(word, b"order") {
        order_command(rest)
    } else if is_word(word, b"text") {
        text_command(rest)
    } else {
        worded_command(word, rest)
    }
}

fn set_command(rest: &[u8]) -> Option<Command<'_>>
    ensures command { option_map command_meant result ≡ set_in (cut_word rest.now) }
    ensures list { IfSome result HasList }
{
    let (question, behind) = front_question(rest)?;
    let value = value_of(behind.strip_prefix(b" ")?)?;
    Some(Command::Set { question, value })
}

fn order_command(rest: &[u8]) -> Option<Command<'_>>
    ensures command { option_map command_meant result ≡ order_in (cut_word rest.now) }
    ensures list { IfSome result HasList }
{
    let (question, list) = split_word(rest);
    let question = question_of(question)?;
    let list = list_of(list)?;
    Some(Command::Order { question, list })
}

// The list behind a word: the empty one where no space follows it.
fn list_of(rest: Option<&[u8]>) -> Option<&[u8]>
    ensures numbers { option_map (λ list. numbers_of list.now) result
        ≡ list_in (option_map (λ text. text.now) rest.entry) }
    ensures list { IfSome result (λ list. IsList list.now) }
{
    match rest {
        Some(list) if !list.is_empty() && is_number_list(list) => Some(list),
        Some(_) => None,
        None => Some(&[]),
    }
}

fn text_command(rest: &[u8]) -> Option<Command<'_>>
    ensures command { option_map command_meant result ≡ text_in (cut_word rest.now) }
    ensures list { IfSome result HasList }
{
    let (question, text) = split_word(rest);
    let question = question_of(question)?;
    Some(Command::Text {
        question,
        text: text.unwrap_or(&[]),
    })
}

// The command of a word that one word follows.
fn worded_command<'a>(word: &[u8], rest: &'a [u8]) -> Option<Command<'a>>
    ensures command { option_map command_meant result ≡ worded_in word.now rest.now }
    ensures list { IfSome result HasList }
{
    if is_word(word, b"lang") {
        lang_command(rest)
    } else if is_word(word, b"extract") {
        extract_command(rest)
    } else if is_word(word, b"route") {
        route_command(rest)
    } else {
        numbered_command(word, rest)
    }
}

fn extract_command(rest: &[u8]) -> Option<Command<'_>>
    ensures command { option_map command_meant result ≡ word_command script.Extract rest.now }
    ensures list { IfSome result HasList }
{
    if is_one_word(rest) {
        Some(Command::Extract(rest))
    } else {
        None
    }
}

fn route_command(rest: &[u8]) -> Option<Command<'_>>
    ensures command { option_map command_meant result ≡ word_command script.Route rest.now }
    ensures list { IfSome result HasList }
{
    if is_one_word(rest) {
        Some(Command::Route(rest))
    } else {
        None
    }
}

// Whether the text is one word: at least one byte, and no space.
fn is_one_word(text: &[u8]) -> bool
    ensures { result ≡ is_one_word text.now }
{
    1 <= text.len() && are_word_bytes(text)
}

fn are_word_bytes(text: &[u8]) -> bool
    ensures { result ≡ list_all reading.is_word_byte text.now }
{
    text.iter().all(|byte| is_word_byte(*byte))
}

fn is_word_byte(byte: u8) -> bool
    ensures { result ≡ reading.is_word_byte byte }
{
    byte != b' '
}

// The command of a word that one number follows.
fn numbered_command<'a>(word: &[u8], rest: &'a [u8]) -> Option<Command<'a>>
    ensures command { option_map command_meant result ≡ numbered_in word.now rest.now }
    ensures list { IfSome result HasList }
{
    if is_word(word, b"why") {
        why_command(rest)
    } else if is_word(word, b"go") {
        go_command(rest)
    } else if is_word(word, b"press") {
        press_command(rest)
    } else if is_word(word, b"defaults") {
        defaults_command(rest)
    } else {
        None
    }
}

#[inline(always)]
fn why_command(rest: &[u8]) -> Option<Command<'_>>
    ensures command { option_map command_meant result ≡ why_in rest.now }
    ensures list { IfSome result HasList }
{
    let (question, behind) = front_question(rest)?;
    if behind.is_empty() {
        Some(Command::Why(question))
    } else {
        None
    }
}

fn go_command(rest: &[u8]) -> Option<Command<'_>>
    ensures command { option_map command_meant result ≡ go_in rest.now }
    ensures list { IfSome result HasList }
{
    let question = question_of(rest)?;
    Some(Command::Go(question))
}

fn press_command(rest: &[u8]) -> Option<Command<'_>>
    ensures command { option_map command_meant result ≡ press_in rest.now }
    ensures list { IfSome result HasList }
{
    let row = row_of(rest)?;
    Some(Command::Press(row))
}

fn defaults_command(rest: &[u8]) -> Option<Command<'_>>
    ensures command { option_map command_meant result ≡ defaults_in rest.now }
    ensures list { IfSome result HasList }
{
    let class = class_of(rest)?;
    Some(Command::Defaults(class))
}

// The most bytes of a language.
const LANGUAGE_LIMIT: usize = 63;

fn lang_command(rest: &[u8]) -> Option<Command<'_>>
    ensures command { option_map command_meant result ≡ lang_in rest.now }
    ensures list { IfSome result HasList }
{
    if 1 <= rest.len() && rest.len() <= LANGUAGE_LIMIT && are_language_bytes(rest) {
        Some(Command::Lang(rest))
    } else {
        None
    }
}

fn are_language_bytes(text: &[u8]) -> bool
    ensures { result ≡ list_all reading.is_language_byte text.now }
{
    text.iter().all(|byte| is_language_byte(*byte))
}

fn is_language_byte(byte: u8) -> bool
    ensures { result ≡ reading.is_language_byte byte }
{
    byte.is_ascii_alphanumeric() || byte == b'-'
}

fn question_of(text: &[u8]) -> Option<u16>
    ensures { result ≡ question_in text.now }
{
    let number = number_of_digits(text, 10, 5)?;
    u16::try_from(number).ok()
}

// How many digits a text begins with, and the number that they write; none where there are more than those of an id.
#[inline(always)]
fn front_digits(text: &[u8]) -> Option<(usize, u32)>
    ensures { result ≡ front_digits_in text.now }
{
    let mut number = 0;
    for (count, byte) in text.iter().enumerate() {
        if !byte.is_ascii_digit() {
            return Some((count, number));
        }
        if count == 5 {
            return None;
        }
        number = 10 * number + u32::from(*byte - b'0');
    }
    Some((text.len(), number))
}

// The id of a question that the digits at the front of a text write, and what stands behind them.
#[inline(always)]
fn front_question(text: &[u8]) -> Option<(u16, &[u8])>
    ensures { option_map (λ front. (front.0, front.1.now)) result ≡ front_question_in text.now }
{
    let (count, number) = front_digits(text)?;
    if count == 0 {
        return None;
    }
    let question = u16::try_from(number).ok()?;
    Some((question, &text[count..]))
}

// A class has the digits of a question's id.
fn class_of(text: &[u8]) -> Option<u16>
    ensures { result ≡ default_class_in text.now }
{
    question_of(text)
}

// The digits are too few for more than 32 bits.
fn row_of(text: &[u8]) -> Option<u32>
    ensures { result ≡ row_number_in text.now }
{
    let number = number_of_digits(text, 10, 9)?;
    u32::try_from(number).ok()
}

#[tactic(auto, using(crate::proofs::FrontLemmas::one_digit))]
fn value_of(text: &[u8]) -> Option<i128>
    ensures { result ≡ value_in text.now }
{
    if let [digit] = text
        && digit.is_ascii_digit()
    {
        return Some(i128::from(*digit - b'0'));
    }
    if let Some(digits) = text.strip_prefix(b"-") {
        let magnitude = number_of_digits(digits, 10, 20)?;
        return Some(-i128::from(magnitude));
    }
    if let Some(digits) = text.strip_prefix(b"0x") {
        return number_of_digits(digits, 16, 16).map(i128::from);
    }
    number_of_digits(text, 10, 20).map(i128::from)
}

//! The values of rows as bytes.

ghost use Rattle.std.specs.Prelude.{option_map};
ghost use Rattle.hii_bytes.specs.Watching.{pen_of};
ghost use Rattle.hii_languages.specs.code.Views.{text_of};
ghost use Rattle.form_page.specs.RowValues.{choice_text, list_text, one_of_text, reference_text};
ghost use Rattle.form_page.specs.Texts.{utf8};
ghost use Rattle.form_page.specs.code.Elements.{elements_left};
ghost use Rattle.form_page.specs.code.Lines.{Adds};
ghost use Rattle.form_page.specs.code.RowViews.{value_text};

use crate::line::Line;
use crate::option_texts::{Elements, text_among};
use crate::row_value::RowValue;
use crate::seen_texts::SeenTexts;
use crate::shown::{put_text, put_units};
use guard_policy::Conditions;
use hii_bytes::Watched;
use hii_languages::Shown;
use ifr_scopes::{Statement, StatementKind};
use std::io::Write;

// How many elements are few.
const FEW: u8 = 8;

// Adds the text of an option, or a question mark where none is to be seen.
fn put_choice<W: Write>(choice: Option<Shown<'_>>, line: &mut Line, out: &mut Watched<W>)
    ensures { Adds (pen_of W.contents out.old) line.old (pen_of W.contents out.new) line.new
        (utf8 (choice_text (option_map text_of choice.entry))) }
{
    match choice {
        Some(text) => put_text(text, line, out),
        None => line.put_byte(b'?', out),
    }
}

// Adds the text of an option between angle brackets.
fn put_one_of<W: Write>(option: Option<Shown<'_>>, line: &mut Line, out: &mut Watched<W>)
    ensures { Adds (pen_of W.contents out.old) line.old (pen_of W.contents out.new) line.new
        (utf8 (one_of_text (option_map text_of option.entry))) }
{
    line.put_byte(b'<', out);
    put_choice(option, line, out);
    line.put_byte(b'>', out);
}

// Whether a list has so few elements that each is looked for by itself: what is kept for many would take longer.
fn has_few(statement: Statement<'_>) -> bool {
    match statement.kind() {
        StatementKind::OrderedList(list) => list.max_containers() <= FEW,
        _ => false,
    }
}

// Adds the texts of elements, with a comma and a space between.
fn put_few<C: Conditions, W: Write>(
    elements: Elements<'_, '_, C>,
    line: &mut Line,
    out: &mut Watched<W>,
)
    ensures { Adds (pen_of W.contents out.old) line.old (pen_of W.contents out.new) line.new
        (utf8 (list_text (elements_left elements.entry))) }
{
    let mut elements = elements;
    let Some(first) = elements.step() else {
        return;
    };
    put_choice(first, line, out);
    while let Some(next) = elements.step() {
        line.put(b", ", out);
        put_choice(next, line, out);
    }
}

// The same, where one walk over the options finds the texts.
fn put_many<C: Conditions, W: Write>(
    elements: Elements<'_, '_, C>,
    line: &mut Line,
    out: &mut Watched<W>,
)
    ensures { Adds (pen_of W.contents out.old) line.old (pen_of W.contents out.new) line.new
        (utf8 (list_text (elements_left elements.entry))) }
{
    let mut items = elements.items;
    let texts = SeenTexts::of(elements.page, elements.statement, items);
    let Some(first) = items.step() else {
        return;
    };
    let choice = text_among(elements.page, elements.statement, first, &texts);
    put_choice(choice, line, out);
    while let Some(next) = items.step() {
        line.put(b", ", out);
        let choice = text_among(elements.page, elements.statement, next, &texts);
        put_choice(choice, line, out);
    }
}

// Adds the texts of elements, with a comma and a space between.
fn put_elements<C: Conditions, W: Write>(
    elements: Elements<'_, '_, C>,
    line: &mut Line,
    out: &mut Watched<W>,
)
    ensures { Adds (pen_of W.contents out.old) line.old (pen_of W.contents out.new) line.new
        (utf8 (list_text (elements_left elements.entry))) }
{
    if has_few(elements.statement) {
        put_few(elements, line, out);
    } else {
        put_many(elements, line, out);
    }
}

// Adds an arrow, and the id of the form to which it leads.
fn put_reference<W: Write>(form: Option<u16>, line: &mut Line, out: &mut Watched<W>)
    ensures { Adds (pen_of W.contents out.old) line.old (pen_of W.contents out.new) line.new
        (utf8 (reference_text form)) }
{
    line.put(b"->", out);
    if let Some(form) = form {
        line.put_decimal(u64::from(form), out);
    }
}

// Adds the characters of a value, one by one.
fn put_value_chars<C: Conditions, W: Write>(
    value: RowValue<'_, '_, C>,
    line: &mut Line,
    out: &mut Watched<W>,
)
    ensures { Adds (pen_of W.contents out.old) line.old (pen_of W.contents out.new) line.new
        (utf8 (value_text value.entry)) }
{
    let mut text = value.chars();
    while let Some(c) = text.next() {
        line.put_char(c, out);
    }
}

/// Adds a value, in UTF-8.
pub(crate) fn put_value<C: Conditions, W: Write>(
    value: &RowValue<'_, '_, C>,
    line: &mut Line,
    out: &mut Watched<W>,
)
    ensures { Adds (pen_of W.contents out.old) line.old (pen_of W.contents out.new) line.new
        (utf8 (value_text value.now)) }
{
    match value {
        RowValue::Empty => {}
        RowValue::Checkbox(is_checked) => {
            line.put_byte(if *is_checked { b'x' } else { b' ' }, out)
        }
        RowValue::Unsigned(number) => line.put_decimal(*number, out),
        RowValue::Signed(_) | RowValue::Hexadecimal(_) => put_value_chars(*value, line, out),
        RowValue::OneOf(option) => put_one_of(*option, line, out),
        RowValue::OrderedList(elements) => put_elements(*elements, line, out),
        RowValue::String(units) => put_units(*units, line, out),
        RowValue::Password(true) => line.put(b"****", out),
        RowValue::Password(false) => {}
        RowValue::Reference(form) => put_reference(*form, line, out),
        RowValue::ResetButton => line.put(b"reset", out),
        RowValue::Text(text) => put_text(*text, line, out),
    }
}

//! Rows of a page.

ghost use Rattle.std.specs.Prelude.{◌≡◌, ◌∷◌, ◌++◌, [], codes, decimal};
ghost use Rattle.hii_bytes.specs.Texts.{right_aligned};
ghost use Rattle.hii_bytes.specs.Watching.{pen_of, Puts};
ghost use Rattle.hii_languages.specs.code.Views.{text_of};
ghost use Rattle.form_page.specs.Texts.{in_columns, utf8};
ghost use Rattle.form_page.specs.Pages.{id_text};
ghost use Rattle.form_page.specs.code.Lines.{Adds};
ghost use Rattle.form_page.specs.code.RowViews.{value_text};

use crate::columns::{five_columns, four_columns, three_columns};
use crate::line::Line;
use crate::row_value::RowValue;
use crate::shown::put_in_columns;
use crate::value_bytes::put_value;
use guard_policy::Conditions;
use hii_bytes::Watched;
use hii_languages::Shown;
use std::io::Write;

/// A row of a page, for one statement (own rule).
#[derive_where(Clone, Copy)]
pub struct Row<'a, 's, C: Conditions> {
    /// The number of the row on the page, from 1.
    pub number: u32,
    /// A space for a subtitle and a text, else a star where the statement may be changed, an exclamation mark where not.
    pub mark: u8,
    /// The id of its question, if the statement is one.
    pub question: Option<u16>,
    /// The prompt of the statement, whole: only the line of the row has it cut, to 24 columns.
    pub prompt: Shown<'a>,
    /// What stands between its brackets.
    pub value: RowValue<'a, 's, C>,
}

/// Writes a value in UTF-8, as it stands between the brackets of a row.
pub fn put_row_value<C: Conditions, W: Write>(value: RowValue<'_, '_, C>, out: &mut Watched<W>)
    ensures { Puts W.contents out.old out.new (utf8 (value_text value.entry)) }
{
    let mut line = Line::new();
    put_value(&value, &mut line, out);
    line.end(out);
}

// Adds the number of a row, in three columns at least.
fn put_number<W: Write>(number: u32, line: &mut Line, out: &mut Watched<W>)
    ensures { Adds (pen_of W.contents out.old) line.old (pen_of W.contents out.new) line.new
        (right_aligned 3 (decimal number)) }
{
    if number < 1000 {
        line.put(&three_columns(number), out);
    } else if number < 10_000 {
        line.put(&four_columns(number), out);
    } else {
        line.put_decimal_right(3, u64::from(number), out);
    }
}

// The id of a question in five columns, or a hyphen for none.
fn id_columns(question: Option<u16>) -> [u8; 5]
    ensures { result ≡ id_text question }
{
    match question {
        Some(id) => five_columns(id),
        None => *b"    -",
    }
}

// Adds a mark and the id of a question, each between spaces.
fn put_mark_and_id<W: Write>(mark: u8, question: Option<u16>, line: &mut Line, out: &mut Watched<W>)
    ensures { Adds (pen_of W.contents out.old) line.old (pen_of W.contents out.new) line.new
        (codes " " ++ (mark ∷ []) ++ codes " " ++ id_text question ++ codes " ") }
{
    let [a, b, c, d, e] = id_columns(question);
    line.put(&[b' ', mark, b' ', a, b, c, d, e, b' '], out);
}

/// Adds what of a row stands before its brackets.
pub(crate) fn put_front<W: Write>(
    number: u32,
    mark: u8,
    question: Option<u16>,
    prompt: Shown<'_>,
    line: &mut Line,
    out: &mut Watched<W>,
)
    ensures { Adds (pen_of W.contents out.old) line.old (pen_of W.contents out.new) line.new
        (right_aligned 3 (decimal number) ++ codes " " ++ (mark ∷ []) ++ codes " "
        ++ id_text question ++ codes " " ++ in_columns 24 (text_of prompt.entry)) }
{
    put_number(number, line, out);
    put_mark_and_id(mark, question, line, out);
    put_in_columns(prompt, line, out);
}

//! The fields of questions.

ghost use Rattle.std.specs.Prelude.{◌≡◌, ◌-◌, decimal, length, option_map};
ghost use Rattle.hii_bytes.specs.Watching.{Puts};
ghost use Rattle.ifr_nodes.specs.Nodes.{nodes_of};
ghost use Rattle.hii_questions.specs.code.Ranges.{range_in};
ghost use Rattle.question_audit.specs.QuestionLines.{field_columns, field_text};

use crate::store_names::StoreNames;
use audit_text::{put_ascii_name, put_hexadecimal, put_left};
use hii_bytes::Watched;
use hii_questions::FieldRange;
use itoa::Buffer;
use std::io::Write;

// How wide the column of fields is.
const COLUMN: usize = 18;

// How many bytes stand around the name, the offset and the width of a field.
const MARKS: usize = 5;

// Writes a number in decimal digits, and tells how many these are.
fn put_number<W: Write>(number: usize, out: &mut Watched<W>) -> usize
    ensures text { Puts W.contents out.old out.new (decimal number) }
    ensures count { result ≡ length (decimal number) }
{
    let mut buffer = Buffer::new();
    let digits = buffer.format(number).as_bytes();
    out.put(digits);
    digits.len()
}

/// Writes where a field lies, as NAME:0xOFFSET(WIDTH), and tells how many bytes are left of a column of 18.
pub fn put_field_text<W: Write>(
    names: &StoreNames<'_>,
    field: FieldRange,
    out: &mut Watched<W>,
) -> usize
    ensures text { Puts W.contents out.old out.new
        (field_text (nodes_of names.now) (range_in field)) }
    ensures left { result ≡ 18 - length (field_text (nodes_of names.now) (range_in field)) }
{
    let name = names.name(field.store);
    put_ascii_name(out, name);
    out.put(b":0x");
    let offset = put_hexadecimal(out, u64::from(field.offset));
    out.put(b"(");
    let width = put_number(field.width, out);
    out.put(b")");
    let behind_name = (COLUMN - MARKS).saturating_sub(name.len().max(1));
    behind_name.saturating_sub(offset).saturating_sub(width)
}

/// Writes where a field lies in its column, or a hyphen where there is none.
pub(crate) fn put_field_column<W: Write>(
    names: &StoreNames<'_>,
    field: Option<FieldRange>,
    out: &mut Watched<W>,
)
    ensures { Puts W.contents out.old out.new
        (field_columns (nodes_of names.now) (option_map range_in field)) }
{
    match field {
        Some(field) => {
            let left = put_field_text(names, field, out);
            out.put_spaces(left);
        }
        None => put_left(out, COLUMN, b"-"),
    }
}

//! Values as scripts take them.

ghost use Rattle.std.specs.Prelude.{◌≡◌, ◌%◌, ◌++◌, ℕ, List, codes, decimal, length};
ghost use Rattle.std.specs.List.{flat_map};
ghost use Rattle.hii_bytes.specs.Watching.{Puts};
ghost use Rattle.ifr_opcodes.specs.code.Ops.{bytes_of as op_bytes};
ghost use Rattle.ifr_expr.specs.Values.{text as text_value};
ghost use Rattle.ifr_expr.specs.code.Views.{value_of};
ghost use Rattle.ifr_scopes.specs.code.Lists.{statement_node};
ghost use Rattle.hii_values.specs.code.StoredLeft.{stored_left};
ghost use Rattle.question_audit.specs.ScriptValues.{behind, checkbox_script, list_script, list_text, numeric_script, one_of_script, script_value, string_script};

use audit_text::put_safe_shown;
use form_page::{RowValue, numeric_value, put_row_value};
use guard_policy::Conditions;
use hii_bytes::Watched;
use hii_languages::Shown;
use hii_questions::{StoredItems, element_width};
use ifr_expr::Value;
use ifr_opcodes::NumericOp;
use ifr_scopes::{Statement, StatementKind};
use sibt_strings::Units;
use std::io::Write;

fn put_checkbox<W: Write>(before: &[u8], value: Value<'_>, out: &mut Watched<W>)
    ensures { Puts W.contents out.old out.new
        (behind before.now (checkbox_script (value_of value.entry))) }
{
    if let Value::Boolean(is_checked) = value {
        out.put(before);
        out.put_decimal(u64::from(is_checked));
    }
}

fn put_numeric<C: Conditions, W: Write>(
    before: &[u8],
    op: NumericOp<'_>,
    value: Value<'_>,
    out: &mut Watched<W>,
)
    ensures { Puts W.contents out.old out.new
        (behind before.now (numeric_script (value_of value.entry) (op_bytes op.entry.op))) }
{
    if let Value::Number(_) = value {
        out.put(before);
        let shown: RowValue<'_, '_, C> = numeric_value(op, value);
        put_row_value(shown, out);
    }
}

fn put_one_of<W: Write>(before: &[u8], value: Value<'_>, out: &mut Watched<W>)
    ensures { Puts W.contents out.old out.new
        (behind before.now (one_of_script (value_of value.entry))) }
{
    if let Value::Number(number) = value {
        out.put(before);
        out.put_decimal(number);
    }
}

fn put_string<W: Write>(before: &[u8], value: Value<'_>, out: &mut Watched<W>)
    requires { (units : List ℕ) → value_of value ≡ text_value units → length units % 2 ≡ 0 }
    ensures { Puts W.contents out.old out.new
        (behind before.now (string_script (value_of value.entry))) }
{
    if let Value::Text(units) = value {
        out.put(before);
        put_safe_shown(Shown::Units(Units::new(units)).chars(), out);
    }
}

// Writes numbers, each behind a comma.
fn put_later<W: Write>(items: StoredItems<'_>, out: &mut Watched<W>)
    ensures { Puts W.contents out.old out.new
        (flat_map (λ item. codes "," ++ decimal item) (stored_left items.entry)) }
{
    let mut items = items;
    while let Some(item) = items.step() {
        out.put(b",");
        out.put_decimal(item);
    }
}

// Writes numbers with commas between.
fn put_items<W: Write>(items: StoredItems<'_>, out: &mut Watched<W>)
    ensures { Puts W.contents out.old out.new (list_text (stored_left items.entry)) }
{
    let mut items = items;
    if let Some(item) = items.step() {
        out.put_decimal(item);
        put_later(items, out);
    }
}

fn put_list<W: Write>(
    before: &[u8],
    statement: Statement<'_>,
    value: Value<'_>,
    out: &mut Watched<W>,
)
    ensures { Puts W.contents out.old out.new
        (behind before.now (list_script (value_of value.entry) (statement_node statement.entry))) }
{
    if let Value::Buffer(bytes) = value {
        out.put(before);
        put_items(StoredItems::new(bytes, element_width(statement)), out);
    }
}

/// Writes a value of a question as `set`, `order` and `text` take it, behind another text. Nothing is written of a PASSWORD, nor
/// where there is no value.
pub fn put_script_value<C: Conditions, W: Write>(
    before: &[u8],
    statement: Statement<'_>,
    value: Value<'_>,
    out: &mut Watched<W>,
)
    requires { (units : List ℕ) → value_of value ≡ text_value units → length units % 2 ≡ 0 }
    ensures { Puts W.contents out.old out.new
        (behind before.now (script_value (statement_node statement.entry) (value_of value.entry))) }
{
    match statement.kind() {
        StatementKind::Checkbox(_) => put_checkbox(before, value, out),
        StatementKind::Numeric(op) => put_numeric::<C, W>(before, op, value, out),
        StatementKind::OneOf(_) => put_one_of(before, value, out),
        StatementKind::String(_) => put_string(before, value, out),
        StatementKind::OrderedList(_) => put_list(before, statement, value, out),
        _ => {}
    }
}

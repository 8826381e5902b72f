//! Questions whose fields hold other bytes, as objects.

ghost use Rattle.std.specs.Prelude.{◌≡◌, option_map};
ghost use Rattle.hii_bytes.specs.Watching.{Puts};
ghost use Rattle.ifr_nodes.specs.Nodes.{nodes_of};
ghost use Rattle.ifr_nodes.specs.code.Checked.{IsNodeOf};
ghost use Rattle.hii_questions.specs.Fields.{asked};
ghost use Rattle.hii_questions.specs.code.Views.{question_node, question_view};
ghost use Rattle.hii_questions.specs.code.Ranges.{range_in};
ghost use Rattle.guard_policy.specs.code.Views.{bytes_of};
ghost use Rattle.question_audit.specs.code.Pages.{audited};
ghost use Rattle.image_audit.specs.Difference as spec;

use audit_json::{end_object, put_escaped_name, put_kind, put_member, put_number};
use audit_text::put_hexadecimal;
use form_page::Page;
use guard_policy::Conditions;
use hii_bytes::Watched;
use hii_questions::{FieldRange, Question, read_value};
use question_audit::{StoreNames, put_json_value};
use question_objects::{put_script, put_text};
use std::io::Write;

/// Writes the members that tell a question: its id, its prompt and its place.
pub(crate) fn put_question_members<'a, C: Conditions, W: Write>(
    page: Page<'a, '_, C>,
    question: Question<'a>,
    out: &mut Watched<W>,
)
    ensures { Puts W.contents out.old out.new
        (spec.question_members (audited page.entry) (question_node question.entry)) }
{
    put_number(b"id", u64::from(question.id()), out);
    put_text(
        b"prompt",
        page.text(question.statement().op().prompt()),
        out,
    );
    put_number(b"at", u64::from(question.statement().place()), out);
}

// Writes where a field lies, as a string.
fn put_range_string<W: Write>(names: &StoreNames<'_>, field: FieldRange, out: &mut Watched<W>)
    ensures { Puts W.contents out.old out.new
        (spec.range_string (nodes_of names.now) (range_in field)) }
{
    out.put(b"\"");
    put_escaped_name(names.name(field.store), out);
    out.put(b":0x");
    put_hexadecimal(out, u64::from(field.offset));
    out.put(b"(");
    out.put_decimal(field.width as u64);
    out.put(b")");
    out.put(b"\"");
}

// Writes the member that tells where the field of a question lies, if it has one.
fn put_range_member<W: Write>(
    names: &StoreNames<'_>,
    field: Option<FieldRange>,
    out: &mut Watched<W>,
)
    ensures { Puts W.contents out.old out.new
        (spec.range_member (nodes_of names.now) (option_map range_in field)) }
{
    if let Some(field) = field {
        put_member(b"field", out);
        put_range_string(names, field, out);
    }
}

// Writes the value of a question as scripts take it.
fn put_value_of<'a, C: Conditions, W: Write>(
    key: &[u8],
    page: Page<'a, '_, C>,
    question: Question<'a>,
    out: &mut Watched<W>,
)
    ensures { Puts W.contents out.old out.new
        (spec.value_member key.now (audited page.entry) (question_view question.entry)) }
{
    let value = read_value(question, page.stores());
    put_script::<C, W>(key, question.statement(), value, out);
}

// Writes what shows of the value of a question.
fn put_shown_string<'a, C: Conditions, W: Write>(
    key: &[u8],
    page: Page<'a, '_, C>,
    question: Question<'a>,
    out: &mut Watched<W>,
)
    requires node { IsNodeOf (bytes_of page.policy) (question_node question) }
    requires asked { question_view question
        ≡ asked (nodes_of (bytes_of page.policy)) (question_node question) }
    ensures { Puts W.contents out.old out.new
        (spec.shown_string key.now (audited page.entry) (question_node question.entry)) }
{
    put_member(key, out);
    put_json_value(page, question, out);
}

// Writes the members that tell the values of a question.
fn put_values_members<'a, C: Conditions, W: Write>(
    one: Page<'a, '_, C>,
    other: Page<'a, '_, C>,
    question: Question<'a>,
    out: &mut Watched<W>,
)
    requires same { bytes_of other.policy ≡ bytes_of one.policy }
    requires node { IsNodeOf (bytes_of one.policy) (question_node question) }
    requires asked { question_view question
        ≡ asked (nodes_of (bytes_of one.policy)) (question_node question) }
    ensures { Puts W.contents out.old out.new
        (spec.values_members (audited one.entry) (audited other.entry) (question_view question.entry)) }
{
    put_value_of(b"old", one, question, out);
    put_value_of(b"new", other, question, out);
    put_shown_string(b"oldShown", one, question, out);
    put_shown_string(b"newShown", other, question, out);
}

/// Writes the object of a question whose field holds other bytes.
pub(crate) fn put_value_object<'a, C: Conditions, W: Write>(
    one: Page<'a, '_, C>,
    other: Page<'a, '_, C>,
    names: &StoreNames<'a>,
    question: Question<'a>,
    out: &mut Watched<W>,
)
    requires same { bytes_of other.policy ≡ bytes_of one.policy }
    requires node { IsNodeOf (bytes_of one.policy) (question_node question) }
    requires asked { question_view question
        ≡ asked (nodes_of (bytes_of one.policy)) (question_node question) }
    requires names { names.now ≡ bytes_of one.policy }
    ensures { Puts W.contents out.old out.new
        (spec.value_object (audited one.entry) (audited other.entry) (question_view question.entry)) }
{
    put_kind(b"value", out);
    put_question_members(one, question, out);
    put_range_member(names, question.field(), out);
    put_values_members(one, other, question, out);
    end_object(out);
}

//! What the opcode of a question says of it.

ghost use Rattle.std.specs.Prelude.{◌≡◌, ◌+◌, ◌<◌, ◌^◌, option_map};
ghost use Rattle.hii_bytes.specs.Watching.{Puts};
ghost use Rattle.ifr_nodes.specs.Nodes.{nodes_of};
ghost use Rattle.ifr_scopes.specs.code.Lists.{form_node};
ghost use Rattle.hii_questions.specs.code.Ranges.{range_in};
ghost use Rattle.hii_questions.specs.code.Views.{question_node, question_view};
ghost use Rattle.guard_policy.specs.code.Views.{bytes_of};
ghost use Rattle.question_audit.specs.code.Pages.{audited};
ghost use Rattle.question_objects.specs.Heads.{field_members, form_member, head_members, id_members, store_members, text_members};

use crate::members::{put_places, put_text};
use audit_json::{put_guid_member, put_number, put_string, put_word};
use audit_text::opcode_name;
use form_page::Page;
use guard_policy::Conditions;
use hii_bytes::Watched;
use hii_questions::{FieldRange, Question};
use ifr_scopes::Form;
use question_audit::StoreNames;
use std::io::Write;

fn put_form_id<W: Write>(form: Option<Form<'_>>, out: &mut Watched<W>)
    ensures { Puts W.contents out.old out.new (form_member (option_map form_node form.entry)) }
{
    if let Some(form) = form {
        put_number(b"form", u64::from(form.op().id()), out);
    }
}

// Writes the id of a question, its form, its opcode and the places of this.
fn put_ids<W: Write>(
    package_place: u64,
    form: Option<Form<'_>>,
    question: Question<'_>,
    out: &mut Watched<W>,
)
    requires { package_place + (question_node question).place < 2 ^ 64 }
    ensures { Puts W.contents out.old out.new
        (id_members package_place (option_map form_node form.entry) (question_node question.entry)) }
{
    put_number(b"id", u64::from(question.id()), out);
    put_form_id(form, out);
    put_word(b"opcode", opcode_name(question.op().op.code), out);
    put_places(package_place, question.place(), out);
}

fn put_texts<'a, C: Conditions, W: Write>(
    page: Page<'a, '_, C>,
    question: Question<'a>,
    out: &mut Watched<W>,
)
    ensures { Puts W.contents out.old out.new
        (text_members (audited page.entry) (question_node question.entry)) }
{
    let op = question.statement().op();
    put_text(b"prompt", page.text(op.prompt()), out);
    put_text(b"help", page.text(op.help()), out);
}

// Writes the store of an id: its name, and its GUID where there is one.
fn put_store<W: Write>(names: &StoreNames<'_>, id: u16, out: &mut Watched<W>)
    ensures { Puts W.contents out.old out.new (store_members (nodes_of names.now) id) }
{
    put_number(b"store", u64::from(id), out);
    put_string(b"name", names.name(id), out);
    if let Some(store) = names.find(id) {
        put_guid_member(b"guid", store.guid(), out);
    }
}

// Writes where the field of a question lies, if it has one.
fn put_field<W: Write>(names: &StoreNames<'_>, field: Option<FieldRange>, out: &mut Watched<W>)
    ensures { Puts W.contents out.old out.new
        (field_members (nodes_of names.now) (option_map range_in field)) }
{
    if let Some(field) = field {
        put_store(names, field.store, out);
        put_number(b"offset", u64::from(field.offset), out);
        put_number(b"width", field.width as u64, out);
    }
}

/// Writes what the opcode of a question says of it, under its form, if there is one. The forms package stands at a place of the file.
pub(crate) fn put_head<'a, C: Conditions, W: Write>(
    page: Page<'a, '_, C>,
    names: &StoreNames<'a>,
    package_place: u64,
    form: Option<Form<'a>>,
    question: Question<'a>,
    out: &mut Watched<W>,
)
    requires names { names.now ≡ bytes_of page.policy }
    requires in_file { package_place + (question_node question).place < 2 ^ 64 }
    ensures { Puts W.contents out.old out.new
        (head_members (audited page.entry) package_place (option_map form_node form.entry)
        (question_view question.entry)) }
{
    put_ids(package_place, form, question, out);
    put_texts(page, question, out);
    put_field(names, question.field(), out);
}

//! Fields, and what an image holds in them.

ghost use Rattle.std.specs.Prelude.{◌≡◌, ◌≤◌, false, IfErr, IfSome, OnOk, length, option_copied};
ghost use Rattle.hii_bytes.specs.Faults.{HasNone, out_of_memory};
ghost use Rattle.hii_bytes.specs.Watching.{Puts};
ghost use Rattle.ifr_nodes.specs.Nodes.{nodes_of};
ghost use Rattle.hii_varstore.specs.StoreNodes.{layout_of};
ghost use Rattle.hii_varstore.specs.Stores.{shape_of};
ghost use Rattle.hii_values.specs.Types.{is_password};
ghost use Rattle.hii_questions.specs.Faults.{IsQuestionFault};
ghost use Rattle.hii_questions.specs.Fields as fields;
ghost use Rattle.hii_questions.specs.code.LyingIn.{LieIn, LiesIn};
ghost use Rattle.hii_questions.specs.code.Views.{question_node, question_view};
ghost use Rattle.image_audit.specs.Lines.{bytes_told, fields_told, is_told, number_text, piece_line, piece_members, piece_object, piece_told, question_told};
ghost use Rattle.byteorder.specs.Endian.{little_number};

use crate::fields::differs;
use crate::range::put_range;
use audit_json::{Telling, end_object, put_kind, put_number, put_string};
use byteorder::{ByteOrder, LittleEndian};
use hii_bytes::{Fault, Watched};
use hii_questions::{Question, Questions, WIDEST_FIELD};
use hii_varstore::{Layout, Stores};
use ifr_scopes::Forms;
use question_audit::StoreNames;
use std::alloc::Global;
use std::io::Write;

// How many bytes are told as one number.
const PIECE: usize = 8;

// Writes bytes, the lowest first, as one number, in two hex digits each.
fn put_hex_number<W: Write>(bytes: &[u8], out: &mut Watched<W>)
    ensures { Puts W.contents out.old out.new (number_text bytes.now) }
{
    out.put(b"0x");
    let mut rest = bytes;
    while let [front @ .., byte] = rest {
        out.put_hex(*byte);
        rest = front;
    }
}

// Writes the line of bytes of a store from an offset on.
fn put_piece_line<W: Write>(
    names: &StoreNames<'_>,
    store: u16,
    offset: usize,
    bytes: &[u8],
    out: &mut Watched<W>,
)
    ensures { Puts W.contents out.old out.new (piece_line (nodes_of names.now) store offset bytes.now) }
{
    put_range(names, store, offset, bytes.len(), out);
    out.put(b"=");
    put_hex_number(bytes, out);
    out.put(b"\n");
}

// Bytes, 8 at most, as one number, the lowest first.
fn number_of(bytes: &[u8]) -> u64
    requires { length bytes.now ≤ 8 }
    ensures { result ≡ little_number (length bytes.now) bytes.now }
{
    if bytes.is_empty() {
        return 0;
    }
    LittleEndian::read_uint(bytes, bytes.len())
}

// Writes the members of bytes of a store from an offset on, which are those of a question.
fn put_piece_members<W: Write>(
    names: &StoreNames<'_>,
    id: u16,
    store: u16,
    offset: usize,
    bytes: &[u8],
    out: &mut Watched<W>,
)
    requires { length bytes.now ≤ 8 }
    ensures { Puts W.contents out.old out.new (piece_members (nodes_of names.now) id store offset bytes.now) }
{
    put_number(b"id", u64::from(id), out);
    put_string(b"name", names.name(store), out);
    put_number(b"offset", offset as u64, out);
    put_number(b"width", bytes.len() as u64, out);
    put_number(b"value", number_of(bytes), out);
}

// Writes these bytes as an object.
fn put_piece_object<W: Write>(
    names: &StoreNames<'_>,
    id: u16,
    store: u16,
    offset: usize,
    bytes: &[u8],
    out: &mut Watched<W>,
)
    requires { length bytes.now ≤ 8 }
    ensures { Puts W.contents out.old out.new (piece_object (nodes_of names.now) id store offset bytes.now) }
{
    put_kind(b"set", out);
    put_piece_members(names, id, store, offset, bytes, out);
    end_object(out);
}

// Tells bytes of a store from an offset on.
fn put_piece<W: Write>(
    telling: Telling,
    names: &StoreNames<'_>,
    id: u16,
    store: u16,
    offset: usize,
    bytes: &[u8],
    out: &mut Watched<W>,
)
    requires { length bytes.now ≤ 8 }
    ensures { Puts W.contents out.old out.new (piece_told telling (nodes_of names.now) id store offset bytes.now) }
{
    match telling {
        Telling::Lines => put_piece_line(names, store, offset, bytes, out),
        Telling::Objects => put_piece_object(names, id, store, offset, bytes, out),
    }
}

// Tells bytes of a store from an offset on, in pieces of 8.
fn put_bytes<W: Write>(
    telling: Telling,
    names: &StoreNames<'_>,
    id: u16,
    store: u16,
    offset: u16,
    bytes: &[u8],
    out: &mut Watched<W>,
)
    requires { length bytes.now ≤ WIDEST_FIELD }
    ensures { Puts W.contents out.old out.new
        (bytes_told telling (nodes_of names.now) id store offset bytes.now) }
{
    let mut at = usize::from(offset);
    for piece in bytes.chunks(PIECE) {
        put_piece(telling, names, id, store, at, piece, out);
        at += PIECE;
    }
}

// Tells the field of a question that is for no password in some stores, if it has one.
fn put_field<W: Write>(
    telling: Telling,
    names: &StoreNames<'_>,
    question: Question<'_>,
    stores: &Stores,
    out: &mut Watched<W>,
)
    requires lies { LiesIn (shape_of stores.now) (question_view question) }
    requires narrow { is_password (question_node question) ≡ false }
    ensures { Puts W.contents out.old out.new
        (question_told telling (nodes_of names.now) stores.now (question_view question.entry)) }
{
    let Some(field) = question.field() else {
        return;
    };
    let offset = usize::from(field.offset);
    if let Some(bytes) = stores.field(field.store, offset, field.width) {
        put_bytes(
            telling,
            names,
            question.id(),
            field.store,
            field.offset,
            bytes,
            out,
        );
    }
}

// Whether the field of a question is told: it is for no password, and where there are other stores, it holds other bytes there.
fn is_told(question: Question<'_>, stores: &Stores, others: Option<&Stores>) -> bool
    requires same { IfSome others (λ others. shape_of stores.now ≡ shape_of others.now) }
    requires lies { LiesIn (shape_of stores.now) (question_view question) }
    ensures { result ≡ is_told stores.now (option_copied others.entry) (question_view question.entry) }
{
    if question.is_password() {
        return false;
    }
    match others {
        Some(others) => differs(question, stores, others),
        None => true,
    }
}

// Tells the fields of all questions that are told, by place.
fn put_told_fields<W: Write>(
    telling: Telling,
    names: &StoreNames<'_>,
    questions: &Questions<'_>,
    stores: &Stores,
    others: Option<&Stores>,
    out: &mut Watched<W>,
)
    requires names { names.now ≡ questions.now.ifr }
    requires same { IfSome others (λ others. shape_of stores.now ≡ shape_of others.now) }
    requires lie { LieIn (shape_of stores.now) (fields.questions (nodes_of questions.now.ifr)) }
    ensures { Puts W.contents out.old out.new
        (fields_told telling (nodes_of questions.now.ifr) stores.now (option_copied others.entry)) }
{
    let mut left = questions.all();
    while let Some(question) = left.next() {
        if is_told(question, stores, others) {
            put_field(telling, names, question, stores, out);
        }
    }
}

/// Tells each field of a question, by place, but those of passwords: where it lies, and what the stores of an image hold
/// there, as one number, the lowest byte first; of a field above 8 bytes each 8 by themselves. With other stores those alone are told in
/// which these differ. Where an allocation fails nothing is written.
pub fn put_fields<W: Write>(
    telling: Telling,
    alloc: Global,
    forms: &Forms<'_>,
    layout: &Layout<'_>,
    stores: &Stores,
    others: Option<&Stores>,
    out: &mut Watched<W>,
) -> Result<(), Fault>
    requires sound { HasNone (IsQuestionFault (nodes_of forms.now)) }
    requires lie { LieIn (shape_of stores.now) (fields.questions (nodes_of forms.now)) }
    requires layout { layout.now ≡ layout_of (nodes_of forms.now) }
    requires laid { shape_of stores.now ≡ layout_of (nodes_of forms.now) }
    requires others { IfSome others (λ others. shape_of others.now ≡ layout_of (nodes_of forms.now)) }
    ensures written { OnOk result (Puts W.contents out.old out.new
        (fields_told telling (nodes_of forms.now) stores.now (option_copied others.entry))) }
    ensures nothing { IfErr result (λ fault. (fault ≡ out_of_memory) × (out.new ≡ out.old)) }
{
    let names = StoreNames::read(alloc, forms)?;
    let questions = Questions::read(alloc, forms, layout)?;
    put_told_fields(telling, &names, &questions, stores, others, out);
    Ok(())
}

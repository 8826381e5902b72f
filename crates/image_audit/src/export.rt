//! The bytes of a store.

ghost use Rattle.std.specs.Prelude.{◌≡◌, ◌==◌, [], false, length, option_map};
ghost use Rattle.std.specs.Io.Buffered.{writer_buffer, writer_contents};
ghost use Rattle.std.specs.List.{find};
ghost use Rattle.hii_bytes.specs.Watching.{Puts, has_failed, inner_of, pen_of};
ghost use Rattle.ifr_nodes.specs.Nodes.{is_store, nodes_of};
ghost use Rattle.ifr_opcodes.specs.Forest.{Node};
ghost use Rattle.ifr_scopes.specs.Stores.{store_id};
ghost use Rattle.ifr_scopes.specs.code.Lists.{store_node};
ghost use Rattle.audit_text.specs.Passing.{PassesOn};
ghost use Rattle.question_audit.specs.QuestionLines.{name_of, store_with};
ghost use Rattle.image_audit.specs.Export.{PutsBytes, store_line, store_members, store_object, store_told};

use audit_json::{Telling, end_object, put_kind, put_number, put_string};
use audit_text::put_ascii_name;
use hii_bytes::Watched;
use ifr_scopes::{Forms, Varstore};
use std::io::{BufWriter, Write};

// The store of an id, the first by place, if there is one.
fn store_with<'a>(forms: &Forms<'a>, id: u16) -> Option<Varstore<'a>>
    ensures { option_map store_node result ≡ store_with (nodes_of forms.now) id }
{
    let mut stores = forms.stores();
    while let Some(store) = stores.next() {
        if store.id() == id {
            return Some(store);
        }
    }
    None
}

// The name of the store of an id, or none where it has no name or is not there.
fn name_of<'a>(forms: &Forms<'a>, id: u16) -> &'a [u8]
    ensures { result.now ≡ name_of (store_with (nodes_of forms.now) id) }
{
    match store_with(forms, id) {
        Some(store) => store.name(),
        None => &[],
    }
}

// Writes the id and the name of a store, and how many bytes it holds.
fn put_store_line<W: Write>(forms: &Forms<'_>, id: u16, bytes: &[u8], out: &mut Watched<W>)
    ensures { Puts W.contents out.old out.new (store_line (nodes_of forms.now) id bytes.now) }
{
    out.put(b"STORE ");
    out.put_decimal(u64::from(id));
    out.put(b" ");
    put_ascii_name(out, name_of(forms, id));
    out.put(b" ");
    out.put_decimal(bytes.len() as u64);
    out.put(b"\n");
}

// Writes that as an object.
fn put_store_object<W: Write>(forms: &Forms<'_>, id: u16, bytes: &[u8], out: &mut Watched<W>)
    ensures { Puts W.contents out.old out.new (store_object (nodes_of forms.now) id bytes.now) }
{
    put_kind(b"store", out);
    put_store_members(forms, id, bytes, out);
    end_object(out);
}

fn put_store_members<W: Write>(forms: &Forms<'_>, id: u16, bytes: &[u8], out: &mut Watched<W>)
    ensures { Puts W.contents out.old out.new (store_members (nodes_of forms.now) id bytes.now) }
{
    put_number(b"id", u64::from(id), out);
    put_string(b"name", name_of(forms, id), out);
    put_number(b"size", bytes.len() as u64, out);
}

// Tells a store.
fn put_told<W: Write>(
    telling: Telling,
    forms: &Forms<'_>,
    id: u16,
    bytes: &[u8],
    out: &mut Watched<W>,
)
    ensures { Puts W.contents out.old out.new (store_told telling (nodes_of forms.now) id bytes.now) }
{
    match telling {
        Telling::Lines => put_store_line(forms, id, bytes, out),
        Telling::Objects => put_store_object(forms, id, bytes, out),
    }
}

/// Tells a store, which is passed on, and then its bytes into a file, unless the answers fail.
pub fn put_store<W: Write + Drop, F: Write>(
    telling: Telling,
    forms: &Forms<'_>,
    id: u16,
    bytes: &[u8],
    out: &mut Watched<BufWriter<W>>,
    file: &mut Watched<F>,
)
    ensures told { PassesOn (pen_of (writer_contents W.contents) out.old)
        (pen_of (writer_contents W.contents) out.new) (store_told telling (nodes_of forms.now) id bytes.now) }
    ensures held { PutsBytes bytes.now (has_failed out.new) F.contents file.old file.new }
    ensures none_held { has_failed out.new ≡ false → writer_buffer (inner_of out.new) ≡ [] }
{
    put_told(telling, forms, id, bytes, out);
    if out.pass_on().is_ok() {
        file.put(bytes);
    }
}

//! A line or an object for each store.

ghost use Rattle.hii_bytes.specs.Watching.{Puts};
ghost use Rattle.hii_bytes.specs.Texts.{right_aligned};
ghost use Rattle.ifr_nodes.specs.Nodes.{nodes_of};
ghost use Rattle.ifr_scopes.specs.code.Lists.{store_node};
ghost use Rattle.store_audit.specs.StoreLines.{attributes_member, size_member, size_text, store_line, store_members, store_object, store_told, stores_text};

use audit_json::{
    Telling, end_object, put_guid_member, put_kind, put_number, put_string, put_word,
};
use audit_text::{Case, put_ascii_name, put_guid, put_left, store_attributes, store_opcode_name};
use hii_bytes::Watched;
use ifr_scopes::{Forms, Varstore};
use std::io::Write;

// Writes how many bytes a store holds, or a hyphen for a store that holds none.
fn put_size<W: Write>(size: Option<u16>, out: &mut Watched<W>)
    ensures { Puts W.contents out.old out.new (right_aligned 5 (size_text size)) }
{
    match size {
        Some(size) => out.put_decimal_right(5, u64::from(size)),
        None => out.put(b"    -"),
    }
}

// Writes the line of a store.
fn put_store<W: Write>(store: Varstore<'_>, out: &mut Watched<W>)
    ensures { Puts W.contents out.old out.new (store_line (store_node store.entry)) }
{
    out.put_decimal_right(5, u64::from(store.id()));
    out.put(b" ");
    put_left(out, 19, store_opcode_name(store));
    out.put(b" ");
    put_size(store.size(), out);
    out.put(b" ");
    put_left(out, 8, store_attributes(store));
    out.put(b" ");
    put_guid(out, store.guid(), Case::Upper);
    out.put(b" ");
    put_ascii_name(out, store.name());
    out.put(b"\n");
}

// Writes the member that tells how many bytes a store holds, if it holds some.
fn put_size_member<W: Write>(size: Option<u16>, out: &mut Watched<W>)
    ensures { Puts W.contents out.old out.new (size_member size) }
{
    if let Some(size) = size {
        put_number(b"size", u64::from(size), out);
    }
}

// Writes the member that tells the attributes of a variable, if it has some.
fn put_attributes_member<W: Write>(words: &[u8], out: &mut Watched<W>)
    ensures { Puts W.contents out.old out.new (attributes_member words.now) }
{
    if words.len() != 1 {
        put_word(b"attributes", words, out);
    }
}

// Writes the members of a store.
fn put_members<W: Write>(store: Varstore<'_>, out: &mut Watched<W>)
    ensures { Puts W.contents out.old out.new (store_members (store_node store.entry)) }
{
    put_number(b"id", u64::from(store.id()), out);
    put_word(b"opcode", store_opcode_name(store), out);
    put_number(b"at", u64::from(store.place()), out);
    put_size_member(store.size(), out);
    put_attributes_member(store_attributes(store), out);
    put_guid_member(b"guid", store.guid(), out);
    put_string(b"name", store.name(), out);
}

// Writes the object of a store.
fn put_object<W: Write>(store: Varstore<'_>, out: &mut Watched<W>)
    ensures { Puts W.contents out.old out.new (store_object (store_node store.entry)) }
{
    put_kind(b"store", out);
    put_members(store, out);
    end_object(out);
}

// Tells a store.
fn put_told<W: Write>(telling: Telling, store: Varstore<'_>, out: &mut Watched<W>)
    ensures { Puts W.contents out.old out.new (store_told telling (store_node store.entry)) }
{
    match telling {
        Telling::Lines => put_store(store, out),
        Telling::Objects => put_object(store, out),
    }
}

/// Tells each store of a form set, by place: in a line, or as an object.
pub fn put_stores<W: Write>(telling: Telling, forms: &Forms<'_>, out: &mut Watched<W>)
    ensures { Puts W.contents out.old out.new (stores_text telling (nodes_of forms.now)) }
{
    let mut stores = forms.stores();
    while let Some(store) = stores.next() {
        put_told(telling, store, out);
    }
}

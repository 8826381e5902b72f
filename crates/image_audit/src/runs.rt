//! Runs of bytes that differ.

ghost use Rattle.std.specs.Prelude.{◌≡◌, ◌≤◌, ◌&&◌, false, length, not};
ghost use Rattle.hii_bytes.specs.Watching.{Puts};
ghost use Rattle.ifr_nodes.specs.Nodes.{nodes_of};
ghost use Rattle.hii_varstore.specs.Stores.{bytes_of};
ghost use Rattle.audit_text.specs.Texts.{digits_of};
ghost use Rattle.audit_json.specs.Objects.{word_member};
ghost use Rattle.question_audit.specs.QuestionLines.{word_where};
ghost use Rattle.image_audit.specs.Difference as spec;

use crate::range::put_range;
use audit_json::{Telling, end_object, put_kind, put_member, put_number, put_string};
use hii_bytes::Watched;
use hii_varstore::Stores;
use ifr_scopes::Forms;
use question_audit::StoreNames;
use std::io::Write;

// How many bytes from the first on differ.
fn differing(one: &[u8], other: &[u8]) -> usize
    ensures count { result ≡ spec.differing one.now other.now }
    ensures within { (result ≤ length one.now) × (result ≤ length other.now) }
{
    let mut count = 0;
    while count < one.len() && count < other.len() && one[count] != other[count] {
        count += 1;
    }
    count
}

// Writes bytes in lower-case hex digits.
fn put_digits<W: Write>(bytes: &[u8], out: &mut Watched<W>)
    ensures { Puts W.contents out.old out.new (digits_of false bytes.now) }
{
    let mut rest = bytes;
    while let [byte, behind @ ..] = rest {
        out.put_hex(*byte);
        rest = behind;
    }
}

// Writes the line of the bytes of a store from an offset on that differ.
fn put_run_line<W: Write>(
    names: &StoreNames<'_>,
    store: u16,
    offset: usize,
    one: &[u8],
    other: &[u8],
    out: &mut Watched<W>,
)
    ensures { Puts W.contents out.old out.new
        (spec.run_line (nodes_of names.now) store offset one.now other.now) }
{
    let width = differing(one, other);
    out.put(b"BYTES ");
    put_range(names, store, offset, width, out);
    out.put(b" ");
    put_digits(&one[..width], out);
    out.put(b" -> ");
    put_digits(&other[..width], out);
    out.put(b"\n");
}

// Writes the members of the bytes of a store from an offset on that differ.
fn put_run_members<W: Write>(
    names: &StoreNames<'_>,
    store: u16,
    offset: usize,
    one: &[u8],
    other: &[u8],
    out: &mut Watched<W>,
)
    ensures { Puts W.contents out.old out.new
        (spec.run_members (nodes_of names.now) store offset (spec.differing one.now other.now) one.now other.now) }
{
    let width = differing(one, other);
    put_number(b"store", u64::from(store), out);
    put_string(b"name", names.name(store), out);
    put_number(b"offset", offset as u64, out);
    put_digits_member(b"old", &one[..width], out);
    put_digits_member(b"new", &other[..width], out);
}

// Writes a member of bytes in hex digits.
fn put_digits_member<W: Write>(key: &[u8], bytes: &[u8], out: &mut Watched<W>)
    ensures { Puts W.contents out.old out.new (word_member key.now (digits_of false bytes.now)) }
{
    put_member(key, out);
    out.put(b"\"");
    put_digits(bytes, out);
    out.put(b"\"");
}

// Writes the object of the bytes of a store from an offset on that differ.
fn put_run_object<W: Write>(
    names: &StoreNames<'_>,
    store: u16,
    offset: usize,
    one: &[u8],
    other: &[u8],
    out: &mut Watched<W>,
)
    ensures { Puts W.contents out.old out.new
        (spec.run_object (nodes_of names.now) store offset one.now other.now) }
{
    put_kind(b"bytes", out);
    put_run_members(names, store, offset, one, other, out);
    end_object(out);
}

// Tells the bytes of a store from an offset on that differ.
fn put_run<W: Write>(
    telling: Telling,
    names: &StoreNames<'_>,
    store: u16,
    offset: usize,
    one: &[u8],
    other: &[u8],
    out: &mut Watched<W>,
)
    ensures { Puts W.contents out.old out.new
        (spec.run_told telling (nodes_of names.now) store offset one.now other.now) }
{
    match telling {
        Telling::Lines => put_run_line(names, store, offset, one, other, out),
        Telling::Objects => put_run_object(names, store, offset, one, other, out),
    }
}

// Tells this where the first byte differs and the one before it does not.
fn put_run_where<W: Write>(
    begins: bool,
    telling: Telling,
    names: &StoreNames<'_>,
    store: u16,
    offset: usize,
    one: &[u8],
    other: &[u8],
    out: &mut Watched<W>,
)
    ensures { Puts W.contents out.old out.new
        (word_where begins (spec.run_told telling (nodes_of names.now) store offset one.now other.now)) }
{
    if begins {
        put_run(telling, names, store, offset, one, other, out);
    }
}

// Whether a run begins at a byte that differs or not, inside of another one or not.
fn begins_run(differs: bool, inside: bool) -> bool
    ensures { result ≡ (differs && not inside) }
{
    differs && !inside
}

// Tells each run of bytes of a store that differ.
fn put_runs<W: Write>(
    telling: Telling,
    names: &StoreNames<'_>,
    store: u16,
    one: &[u8],
    other: &[u8],
    out: &mut Watched<W>,
)
    ensures { Puts W.contents out.old out.new
        (spec.runs_told telling (nodes_of names.now) store false 0 one.now other.now) }
{
    let mut inside = false;
    let mut at = 0;
    while at < one.len() && at < other.len() {
        let differs = one[at] != other[at];
        put_run_where(
            begins_run(differs, inside),
            telling,
            names,
            store,
            at,
            &one[at..],
            &other[at..],
            out,
        );
        inside = differs;
        at += 1;
    }
}

/// Tells the bytes that differ, by store and offset.
pub(crate) fn put_bytes<W: Write>(
    telling: Telling,
    forms: &Forms<'_>,
    names: &StoreNames<'_>,
    one: &Stores,
    other: &Stores,
    out: &mut Watched<W>,
)
    requires { names.now ≡ forms.now }
    ensures { Puts W.contents out.old out.new (spec.bytes_told telling (nodes_of forms.now) one.now other.now) }
{
    let mut stores = forms.stores();
    while let Some(store) = stores.next() {
        put_held_runs(telling, names, store.id(), one, other, out);
    }
}

// Tells the bytes of a store that differ, where both stores hold bytes.
fn put_held_runs<W: Write>(
    telling: Telling,
    names: &StoreNames<'_>,
    store: u16,
    one: &Stores,
    other: &Stores,
    out: &mut Watched<W>,
)
    ensures { Puts W.contents out.old out.new
        (spec.held_runs telling (nodes_of names.now) store (bytes_of one.now store) (bytes_of other.now store)) }
{
    let (Some(xs), Some(ys)) = (one.bytes(store), other.bytes(store)) else {
        return;
    };
    put_runs(telling, names, store, xs, ys, out);
}

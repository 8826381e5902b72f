//! The header of a configuration text for each store that holds bytes.

ghost use Rattle.std.specs.Prelude.{◌≡◌, IfErr, IfOk};
ghost use Rattle.std.specs.List.{AllByRecursion, flat_map};
ghost use Rattle.browser_rules.specs.Configuration.{four_digits};
ghost use Rattle.browser_rules.specs.Faults.{list_faults};
ghost use Rattle.browser_rules.specs.Packages.{device_path};
ghost use Rattle.hii_bytes.specs.Faults.{IsLeastAmong};
ghost use Rattle.hii_bytes.specs.Texts.{hex_of};
ghost use Rattle.hii_bytes.specs.Watching.{Puts};
ghost use Rattle.ifr_nodes.specs.Nodes.{nodes_of};
ghost use Rattle.ifr_scopes.specs.code.Lists.{store_node};
ghost use Rattle.store_audit.specs.Fillings.{buffer_stores};
ghost use Rattle.store_audit.specs.HeaderLines.{IsReadBack, header_line, header_object, header_text, header_told, headers_text, naming};

use audit_json::{Telling, end_object, put_kind, put_member, put_number};
use hii_bytes::laws::are_bytes;
use hii_bytes::{Fault, Watched};
use hii_packages::PackageList;
use ifr_scopes::{Forms, Varstore};
use std::io::Write;

/// The device path of a list, which no bytes are where it has none (UEFI 2.8, 33.3.4 Device Path Package), or the least fault of the
/// list's packages (1 to 5).
pub fn device_path(list: &[u8]) -> Result<&[u8], Fault>
    ensures path { IfOk result (λ path. path.now ≡ device_path list.entry.now) }
    ensures refused { IfErr result (IsLeastAmong (list_faults list.entry.now)) }
{
    Ok(PackageList::read(list)?.device_path())
}

// Writes bytes, each in two hex digits.
fn put_digits<W: Write>(bytes: &[u8], out: &mut Watched<W>)
    ensures { Puts W.contents out.old out.new (flat_map hex_of bytes.now) }
{
    for byte in bytes {
        out.put_hex(*byte);
    }
}

// Writes a byte as a character, in four hex digits.
fn put_character<W: Write>(byte: u8, out: &mut Watched<W>)
    ensures { Puts W.contents out.old out.new (four_digits byte) }
{
    out.put_hex(0);
    out.put_hex(byte);
}

// Writes the bytes of a name as characters.
fn put_characters<W: Write>(name: &[u8], out: &mut Watched<W>)
    ensures { Puts W.contents out.old out.new (flat_map four_digits name.now) }
{
    for byte in name {
        put_character(*byte, out);
    }
}

// Writes the header that names a store of a list with this device path.
fn put_header<W: Write>(store: Varstore<'_>, path: &[u8], out: &mut Watched<W>)
    ensures { Puts W.contents out.old out.new (header_text (naming path.now (store_node store.entry))) }
{
    out.put(b"GUID=");
    put_digits(store.guid().bytes(), out);
    out.put(b"&NAME=");
    put_characters(store.name(), out);
    out.put(b"&PATH=");
    put_digits(path, out);
}

// Writes the line of a store.
fn put_header_line<W: Write>(store: Varstore<'_>, path: &[u8], out: &mut Watched<W>)
    ensures { Puts W.contents out.old out.new (header_line path.now (store_node store.entry)) }
{
    put_header(store, path, out);
    out.put(b"\n");
}

// Writes the object of a store.
fn put_header_object<W: Write>(store: Varstore<'_>, path: &[u8], out: &mut Watched<W>)
    ensures { Puts W.contents out.old out.new (header_object path.now (store_node store.entry)) }
{
    put_kind(b"header", out);
    put_number(b"id", u64::from(store.id()), out);
    put_member(b"header", out);
    out.put(b"\"");
    put_header(store, path, out);
    out.put(b"\"");
    end_object(out);
}

// Tells the header of a store.
fn put_header_told<W: Write>(
    telling: Telling,
    store: Varstore<'_>,
    path: &[u8],
    out: &mut Watched<W>,
)
    ensures text { Puts W.contents out.old out.new (header_told telling path.now (store_node store.entry)) }
    ensures read_back { IsReadBack (naming path.now (store_node store.entry)) }
{
    are_bytes(store.guid().bytes());
    are_bytes(store.name());
    are_bytes(path);
    match telling {
        Telling::Lines => put_header_line(store, path, out),
        Telling::Objects => put_header_object(store, path, out),
    }
}

/// Tells for each store that holds bytes, by place, the header with which a configuration text names it in a list with this device
/// path: in a line, or in an object. `extract` and `route` of a session read it as the store's GUID, name and device path.
pub fn put_headers<W: Write>(telling: Telling, forms: &Forms<'_>, path: &[u8], out: &mut Watched<W>)
    ensures lines { Puts W.contents out.old out.new (headers_text telling path.now (nodes_of forms.now)) }
    ensures read_back { AllByRecursion (λ n. IsReadBack (naming path.now n))
        (buffer_stores (nodes_of forms.now)) }
{
    let mut stores = forms.stores();
    while let Some(store) = stores.next() {
        if store.size().is_some() {
            put_header_told(telling, store, path, out);
        }
    }
}

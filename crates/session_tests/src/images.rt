//! A line and an image of a store.

ghost use Rattle.std.specs.Prelude.{◌≡◌, IfOk, map};
ghost use Rattle.ifr_nodes.specs.Nodes.{nodes_of};
ghost use Rattle.store_audit.specs.Fillings.{buffer_stores};
ghost use Rattle.store_audit.specs.code.Fillings.{filling_node};

use audit_json::Telling;
use hii_bytes::Watched;
use std::alloc::{AllocError, Global};
use std::io::BufWriter;
use std::process::Abort;
use store_audit::{Declared, Filling, Source, device_path, put_headers, put_image, put_stores};

// A list with a forms package of one form and a store of two bytes.
static LIST: &[u8] = b"\x11\x11\x11\x11\x11\x11\x11\x11\x11\x11\x11\x11\x11\x11\x11\x11\x55\0\0\0\
\x3d\0\0\x02\
\x0e\x97\x22\x22\x22\x22\x22\x22\x22\x22\x22\x22\x22\x22\x22\x22\x22\x22\x01\0\0\0\0\
\x24\x18\x33\x32\x31\x30\x41\x40\x51\x50\x60\x61\x70\x71\x72\x73\x74\x75\x01\0\x02\0V\0\
\x01\x86\x01\0\x02\0\
\x29\x02\x29\x02\
\x04\0\0\xdf";

// The line of the store, and its header.
const LINES: &[u8] =
    b"    1 VARSTORE                2 -        30313233-4041-5051-6061-707172737475 V\n\
GUID=33323130414051506061707172737475&NAME=0056&PATH=\n";

const OBJECT: &[u8] =
    b"{\"kind\":\"store\",\"id\":1,\"name\":\"V\",\"size\":2,\"source\":\"zeros\"}\n";

const IMAGE: &[u8] = b"HVS2\"\"\"\"\"\"\"\"\"\"\"\"\"\"\"\"\x01\0\x01\0\x02\0\0\0";

// The list, of whose bytes proofs know nothing.
fn list() -> &'static [u8] {
    LIST
}

fn stores_and_headers_are_told(rt: &impl Abort, alloc: Global, declared: &Declared<'_>) {
    let path = device_path(list()).expect(rt, "a list");
    let mut out = Watched::new(Vec::new(alloc));
    put_stores(Telling::Lines, declared.forms(), &mut out);
    put_headers(Telling::Lines, declared.forms(), path, &mut out);
    assert!(rt; out.into_inner().as_slice() == LINES);
}

fn fillings<'a>(alloc: Global, declared: &Declared<'a>) -> Result<Vec<Filling<'a>>, AllocError>
    ensures { IfOk result (λ fillings. map filling_node fillings.items
        ≡ buffer_stores (nodes_of declared.now)) }
{
    let mut fillings = Vec::new(alloc);
    let mut stores = declared.forms().stores();
    while let Some(store) = stores.next() {
        if store.size().is_some() {
            let source = Source::Zeros;
            fillings.push(Filling { store, source })?;
        }
    }
    Ok(fillings)
}

// Fills the stores: what is told and the image.
fn are_filled<R: Abort + AllocGlobal>(rt: &R, declared: &Declared<'_>, fillings: &[Filling<'_>])
    requires { map filling_node fillings.now ≡ buffer_stores (nodes_of declared.now) }
{
    let buffer = BufWriter::new(rt.alloc(), Vec::new(rt.alloc())).expect(rt, "a buffer");
    let mut out = Watched::new(buffer);
    let mut file = Watched::new(Vec::new(rt.alloc()));
    let telling = Telling::Objects;
    let put = put_image(
        telling,
        rt.alloc(),
        declared,
        fillings,
        None,
        &mut out,
        &mut file,
    );
    assert!(rt; matches!(put, Ok(true)));
    assert!(rt; out.into_inner().into_parts().0.as_slice() == OBJECT);
    assert!(rt; file.into_inner().as_slice() == IMAGE);
}

#[test]
fn stores_are_told_and_filled_with_zeros(rt: HostRuntime) {
    let declared = Declared::read(rt.alloc(), list(), 1).expect(&rt, "a form set");
    assert!(rt; declared.layout().size(1) == Some(2));
    stores_and_headers_are_told(&rt, rt.alloc(), &declared);
    let fillings = fillings(rt.alloc(), &declared).expect(&rt, "fillings");
    are_filled(&rt, &declared, fillings.as_slice());
}

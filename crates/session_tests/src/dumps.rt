//! A dump of a list without packages and of two bytes.

use audit_json::Telling;
use audit_text::{put_hexadecimal, put_left};
use dump_audit::{nth_list, put_list, put_no_list, put_rest, put_split, put_taken};
use hii_bytes::Watched;
use hii_dumps::Dump;
use std::io::BufWriter;

static DUMP: &[u8] = b"\x11\x11\x11\x11\x11\x11\x11\x11\x11\x11\x11\x11\x11\x11\x11\x11\x18\0\0\0\
\x04\0\0\xdf\
\x44\x44";

// The dump, of whose bytes proofs know nothing.
fn dump() -> &'static [u8] {
    DUMP
}

const LINES: &[u8] = b"LIST 1 00000000 24 forms 0 strings -\nREST 00000018 2\n";

const OBJECTS: &[u8] = b"{\"kind\":\"list\",\"number\":1,\"at\":0,\"size\":24,\"forms\":0}\n\
{\"kind\":\"error\",\"text\":\"NO LIST 2\"}\n\
{\"kind\":\"rest\",\"at\":24,\"size\":2}\n";

#[test]
fn a_dump_is_split(rt: HostRuntime) {
    let mut out = Watched::new(Vec::new(rt.alloc()));
    assert!(rt; put_split(Telling::Lines, rt.alloc(), dump(), &mut out).is_ok());
    assert!(rt; out.into_inner().as_slice() == LINES);
}

#[test]
fn a_list_is_taken(rt: HostRuntime) {
    let buffer = BufWriter::new(rt.alloc(), Vec::new(rt.alloc())).expect(&rt, "a buffer");
    let mut out = Watched::new(buffer);
    let mut file = Watched::new(Vec::new(rt.alloc()));
    let telling = Telling::Lines;
    let taken = put_taken(telling, rt.alloc(), dump(), 1, &mut out, &mut file);
    assert!(rt; matches!(taken, Ok(true)));
    assert!(rt; file.into_inner().len() == 24);
}

#[test]
fn a_list_is_found_by_its_number(rt: HostRuntime) {
    let list = nth_list(dump(), 1).expect(&rt, "a list");
    assert!(rt; list.place == 0 && list.bytes.len() == 24);
}

#[test]
fn parts_of_a_dump_are_objects(rt: HostRuntime) {
    let dump = Dump::read(dump());
    assert!(rt; dump.lists().next().is_some());
    assert!(rt; dump.rest().len() == 2 && dump.rest_place() == 24);
    let list = dump.list(1).expect(&rt, "a list");
    let mut out = Watched::new(Vec::new(rt.alloc()));
    let telling = Telling::Objects;
    assert!(rt; put_list(telling, rt.alloc(), 1, list, &mut out).is_ok());
    put_no_list(telling, 2, &mut out);
    put_rest(telling, &dump, &mut out);
    assert!(rt; out.into_inner().as_slice() == OBJECTS);
}

#[test]
fn columns_are_filled(rt: HostRuntime) {
    let mut out = Watched::new(Vec::new(rt.alloc()));
    put_left(&mut out, 4, b"ab");
    assert!(rt; put_hexadecimal(&mut out, 0x1f) == 2);
    assert!(rt; out.into_inner().as_slice() == b"ab  1f".as_slice());
}

//! Configuration texts: what they say, and responses that are written.

use config_text::{Header, put_response, read_request, read_response, write_response};
use hii_bytes::{Watched, WriteFault};

static HEADER: &[u8] = b"GUID=33333333333333333333333333333333&NAME=0056&PATH=7f";

static REQUEST: &[u8] = b"GUID=33333333333333333333333333333333&NAME=0056&PATH=7f&OFFSET=1&WIDTH=1";

static RESPONSE: &[u8] =
    b"GUID=33333333333333333333333333333333&NAME=0056&PATH=7f&OFFSET=0001&WIDTH=0001&VALUE=02";

// Texts, of which proofs know nothing.

fn header_alone() -> &'static [u8] {
    HEADER
}

fn request_of_a_block() -> &'static [u8] {
    REQUEST
}

fn response_of_a_block() -> &'static [u8] {
    RESPONSE
}

fn is_of_store(header: &Header<'_>) -> bool {
    header.names(&[0x33; 16], b"V", b"\x7f")
}

#[test]
fn a_response_is_read(rt: HostRuntime) {
    let response = read_response(response_of_a_block()).expect(&rt, "a response");
    assert!(rt; is_of_store(&response.header()));
    let block = response.blocks().next().expect(&rt, "a block");
    assert!(rt; block.offset == 1 && block.width == 1);
    let mut value = [9];
    block.value_into(&mut value);
    assert!(rt; value == [2]);
}

#[test]
fn a_header_asks_for_all_bytes(rt: HostRuntime) {
    let request = read_request(header_alone()).expect(&rt, "a request");
    assert!(rt; is_of_store(&request.header()));
    let block = request.blocks_asked(5).next().expect(&rt, "a block");
    assert!(rt; block.offset == 0 && block.width == 5);
}

// Both responses are over a store of the bytes 1 and 2.

#[test]
fn a_response_is_put(rt: HostRuntime) {
    let request = read_request(request_of_a_block()).expect(&rt, "a request");
    assert!(rt; request.blocks().are_inside(2));
    let mut out = Watched::new(Vec::new(rt.alloc()));
    put_response(&mut out, &request, &[1, 2]);
    assert!(rt; out.into_inner().as_slice() == response_of_a_block());
}

// A writer that errs behind 60 bytes has taken the front of the response.
#[test]
fn a_writer_fails_after_some_bytes(rt: HostRuntime) {
    let request = read_request(request_of_a_block()).expect(&rt, "a request");
    assert!(rt; request.blocks().are_inside(2));
    let mut room = [0u8; 60];
    let mut out = Watched::new(room.as_mut_slice());
    let written = write_response(&mut out, &request, &[1, 2]);
    assert!(rt; written == Err(WriteFault { written: 60 }));
    assert!(rt; response_of_a_block().starts_with(&room));
}

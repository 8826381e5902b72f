//! How a run that is refused is told as an object.

use audit_json::{Telling, put_error, put_refused, put_refused_at};
use hii_bytes::{Cause, Fault, Watched};

// Want of memory has no place.
const OBJECTS: &[u8] = b"{\"kind\":\"refused\",\"cause\":20,\"name\":\"OpLength\",\"at\":168}\n\
{\"kind\":\"refused\",\"cause\":60,\"name\":\"OutOfMemory\"}\n\
{\"kind\":\"error\",\"text\":\"a \\\"store\\\"\"}\n";

#[test]
fn refusals_are_objects(rt: HostRuntime) {
    assert!(rt; Telling::of(true) == Telling::Objects);
    let mut out = Watched::new(Vec::new(rt.alloc()));
    put_refused_at(Fault::at(Cause::OpLength, 168), &mut out);
    put_refused(Cause::OutOfMemory, &mut out);
    put_error(b"a \"store\"", &mut out);
    assert!(rt; out.into_inner().as_slice() == OBJECTS);
}

//! The opcodes of a forms package.

use audit_json::Telling;
use hii_bytes::Watched;
use hii_packages::PackageList;
use opcode_audit::{FirstStrings, put_opcodes};

// A list with a text `a"b` and a forms package of a FORM in a SUPPRESS_IF, behind which no opcode fits.
static LIST: &[u8] = b"\x11\x11\x11\x11\x11\x11\x11\x11\x11\x11\x11\x11\x11\x11\x11\x11\x6b\0\0\0\
\x3e\0\0\x04\x34\0\0\0\x34\0\0\0\
\0\0\0\0\0\0\0\0\0\0\0\0\0\0\0\0\0\0\0\0\0\0\0\0\0\0\0\0\0\0\0\0\x01\0\
en-US\0\
\x14a\0\"\0b\0\0\0\0\
\x15\0\0\x02\
\x0a\x82\x46\x02\
\x01\x86\x01\0\x01\0\
\x29\x02\x29\x02\
\x24\x04\0\
\x04\0\0\xdf";

const LINES: &[u8] = b"00000004 00000156 SUPPRESS_IF ; 0a82\n\
00000006 00000158   TRUE ; 4602\n\
00000008 0000015a   FORM FormId=1 FormTitle=1 \"a\\\"b\" ; 018601000100\n\
0000000e 00000160   END ; 2902\n\
00000010 00000162 END ; 2902\n";

// The list, of whose bytes proofs know nothing.
fn list() -> &'static [u8] {
    LIST
}

#[test]
fn opcodes_are_told(rt: HostRuntime) {
    let packages = PackageList::read(list()).expect(&rt, "a list");
    let strings = FirstStrings::read(rt.alloc(), &packages).expect(&rt, "strings");
    let forms = packages.forms(1).expect(&rt, "a forms package");
    let mut out = Watched::new(Vec::new(rt.alloc()));
    put_opcodes(Telling::Lines, &strings, 0x152, forms, &mut out);
    assert!(rt; out.into_inner().as_slice() == LINES);
}

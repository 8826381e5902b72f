//! Sessions: scripts, a reader and a writer that fail, and commands.

use crate::broken::Broken;
use browser_core::{End, Reply, RunFault, Session};
use hii_bytes::{Watched, WriteFault};
use hii_commands::Command;
use hii_varstore::Stores;
use std::io::{Read, Write};
use std::process::Abort;

// A list with a forms package of one form, over a store of two bytes: a checkbox of the id 1 over the first byte, which is hidden while
// the question 2 is 1, and one of the id 2 over the second.
static LIST: &[u8] = b"\x11\x11\x11\x11\x11\x11\x11\x11\x11\x11\x11\x11\x11\x11\x11\x11\x7b\0\0\0\
\x63\0\0\x02\
\x0e\x97\x22\x22\x22\x22\x22\x22\x22\x22\x22\x22\x22\x22\x22\x22\x22\x22\x01\0\0\0\0\
\x24\x18\x33\x33\x33\x33\x33\x33\x33\x33\x33\x33\x33\x33\x33\x33\x33\x33\x01\0\x02\0V\0\
\x01\x86\x01\0\x02\0\
\x0a\x82\x12\x06\x02\0\x01\0\
\x06\x0e\x03\0\0\0\x01\0\x01\0\0\0\0\0\
\x29\x02\
\x06\x0e\x04\0\0\0\x02\0\x01\0\x01\0\0\0\
\x29\x02\x29\x02\
\x04\0\0\xdf";

static STORES: &[u8] = b"HVS1\x01\0\x01\0\x02\0\0\0";

static SCRIPT: &[u8] = b"set 1 1\nsubmit\nset 2 1\n";

static ANSWERS: &[u8] = b"OK\nOK 1\nCHANGED 1\nOK\n";

// The list, an image of its store, a script, and what is answered to it, of which proofs know nothing.

fn list() -> &'static [u8] {
    LIST
}

fn stores() -> &'static [u8] {
    STORES
}

fn script_text() -> &'static [u8] {
    SCRIPT
}

fn answers() -> &'static [u8] {
    ANSWERS
}

// The two bytes of the store.
fn pair(stores: &Stores) -> Option<[u8; 2]> {
    match stores.bytes(1) {
        Some([first, second]) => Some([*first, *second]),
        _ => None,
    }
}

// The bytes that commands change, and those that were last submitted.
fn pairs(session: &Session<'_>) -> [Option<[u8; 2]>; 2] {
    [pair(session.working()), pair(session.committed())]
}

// How a session ends that is opened for a script alone, and the bytes that it leaves. Neither this nor what calls a session below has a
// clause, so that no test carries more than one contract.
pub(crate) fn after<R: Abort + AllocGlobal>(
    rt: &R,
    script: &mut Watched<impl Read>,
    out: &mut Watched<impl Write>,
) -> (Result<End, RunFault>, [Option<[u8; 2]>; 2]) {
    let opened = Session::open(rt.alloc(), list(), 1, stores(), b"en-US");
    let mut session = opened.expect(rt, "a session");
    let end = session.run_script(script, out);
    (end, pairs(&session))
}

#[test]
fn a_script_is_answered(rt: HostRuntime) {
    let mut script = Watched::new(script_text());
    let mut out = Watched::new(Vec::new(rt.alloc()));
    let ran = after(&rt, &mut script, &mut out);
    assert!(rt; ran == (Ok(End::Done), [Some([1, 1]), Some([1, 0])]));
    assert!(rt; out.into_inner().as_slice() == answers());
}

// The command at whose answer the writer fails is carried out.
#[test]
fn a_writer_fails(rt: HostRuntime) {
    let mut room = [0u8; 5];
    let mut script = Watched::new(script_text());
    let mut out = Watched::new(room.as_mut_slice());
    let ran = after(&rt, &mut script, &mut out);
    assert!(rt; ran == (Err(RunFault::Write), [Some([1, 0]), Some([1, 0])]));
    assert!(rt; answers().starts_with(&room));
}

// The lines that were whole are answered.
#[test]
fn a_reader_fails(rt: HostRuntime) {
    let mut script = Watched::new(Broken {
        bytes: b"set 1 1\nsubmit",
    });
    let mut out = Watched::new(Vec::new(rt.alloc()));
    let ran = after(&rt, &mut script, &mut out);
    assert!(rt; ran == (Err(RunFault::Read), [Some([1, 0]), Some([0, 0])]));
    assert!(rt; out.into_inner().as_slice() == b"OK\n".as_slice());
}

// How a session answers the command that hides the question 1.
fn set(session: &mut Session<'_>) -> Result<Reply, WriteFault> {
    let mut room = [0u8; 3];
    let mut out = Watched::new(room.as_mut_slice());
    let set = Command::Set {
        question: 2,
        value: 1,
    };
    session.run(set, &mut out)
}

// How it answers by a page, to a writer that takes 5 bytes.
fn page_cut_short(session: &mut Session<'_>) -> Result<Reply, WriteFault> {
    let mut room = [0u8; 5];
    let mut out = Watched::new(room.as_mut_slice());
    session.run(Command::Page, &mut out)
}

// The question in the first row of the page.
fn first_shown(session: &Session<'_>) -> Option<u16> {
    session.page().rows().next()?.question
}

#[test]
fn a_command_is_carried_out(rt: HostRuntime) {
    let opened = Session::open(rt.alloc(), list(), 1, stores(), b"en-US");
    let mut session = opened.expect(&rt, "a session");
    assert!(rt; set(&mut session) == Ok(Reply::Accepted));
    // one condition was evaluated anew
    assert!(rt; session.renewed() == 1 && first_shown(&session) == Some(2));
    assert!(rt; page_cut_short(&mut session) == Err(WriteFault { written: 5 }));
}

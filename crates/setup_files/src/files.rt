//! Files of a program.

ghost use Rattle.std.specs.Prelude.{◌≡◌, ◌≢◌, ◌≤◌, IfErr, IfOk, length};
ghost use Rattle.setup_files.specs.declared.reading.TheConstants.{FILE_LIMIT};

use crate::endings::{Status, fault, refused};
use crate::noted::Noted;
use crate::reading::{ReadError, read_whole};
use crate::terminal::Terminals;
use hii_bytes::{Cause, Watched};
use std::fs;
use std::rt::Files;

/// A file that was read whole.
#[derive(Drop)]
pub struct WholeFile<'a> {
    /// Its path.
    pub path: &'a str,
    /// Its bytes.
    pub bytes: Vec<u8>,
    ghost limited: { length bytes.items ≤ FILE_LIMIT },
}

/// The file of a path, or the status with which the program ends; `what` says at a fault what was done.
pub fn file<'a, R: Files + Print + Eprint + AllocGlobal>(
    rt: &R,
    terminals: Terminals,
    path: &'a str,
    what: &str,
) -> Result<WholeFile<'a>, Status>
    ensures path { IfOk result (λ file. file.path.now ≡ path.now) }
    ensures err { IfErr result (λ status. status ≢ Status.Done) }
{
    let mut file = match fs::open(rt, path) {
        Ok(file) => Watched::new(Noted::new(file)),
        Err(e) => return Err(fault(rt, terminals, what, path, Some(e))),
    };
    match read_whole(rt.alloc(), &mut file) {
        Ok(bytes) => Ok(WholeFile { path, bytes }),
        Err(ReadError::TooLong) => Err(refused(rt, terminals, Cause::FileTooLong)),
        Err(ReadError::NoMemory) => Err(refused(rt, terminals, Cause::OutOfMemory)),
        Err(ReadError::Fault) => {
            let reason = file.into_inner().error();
            Err(fault(rt, terminals, what, path, reason))
        }
    }
}

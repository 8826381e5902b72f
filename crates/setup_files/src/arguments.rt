//! The words of the command line.

ghost use Rattle.std.specs.Prelude.{◌≢◌, IfErr};

use crate::endings::{Status, refused, usage};
use crate::terminal::Terminals;
use hii_bytes::Cause;
use std::env;
use std::io::ErrorKind;
use std::rt::Env;

/// The words of the command line, of which the first is the program's name, or the status with which the program ends.
pub fn words<R: Env + Print + Eprint + AllocGlobal>(
    rt: &R,
    terminals: Terminals,
) -> Result<Vec<String>, Status>
    ensures { IfErr result (λ status. status ≢ Status.Done) }
{
    match collected(rt) {
        Ok(words) => Ok(words),
        Err(e) => Err(if e.kind() == ErrorKind::OutOfMemory {
            refused(rt, terminals, Cause::OutOfMemory)
        } else {
            usage(rt, &"error: an argument is not UTF-8\n")
        }),
    }
}

fn collected<R: Env + AllocGlobal>(rt: &R) -> std::io::Result<Vec<String>> {
    Ok(env::args(rt)?.collect(rt.alloc())?)
}

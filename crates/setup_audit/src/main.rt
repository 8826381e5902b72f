//! What stands around `setup`: the package lists of a dump, the stores that a list declares and images of them, and the questions of
//! a form set with what forbids their change (own rule).
#![tactic(auto)]

use audit_commands::{
    apply, check, difference, opcodes, question, questions, report, split, unlock,
};
use audit_options::{Task, read_words};
use clap::Error;
use clap::error::ErrorKind;
use hii_bytes::Cause;
use setup_files::{Status, Terminals, VERSION, refused, shown, usage, words};
use std::process::ExitCode;
use std::rt::{Env, Files};
use store_commands::{export, image, stores};
use survey_commands::survey;

fn main(rt: HostRuntime) -> ExitCode {
    let (Ok(status) | Err(status)) = run(&rt, Terminals::of(&rt));
    ExitCode::from(status.number())
}

fn run<R: Env + Files + Print + Eprint + AllocGlobal>(
    rt: &R,
    terminals: Terminals,
) -> Result<Status, Status> {
    let words = words(rt, terminals)?;
    match read_words(rt.alloc(), VERSION, words.as_slice()) {
        Ok(Task::Split(options)) => split::run(rt, terminals, options),
        Ok(Task::Questions(options)) => questions::run(rt, terminals, options),
        Ok(Task::Question(options)) => question::run(rt, terminals, options),
        Ok(Task::Stores(options)) => stores::run(rt, terminals, options),
        Ok(Task::Check(options)) => check::run(rt, terminals, options),
        Ok(Task::Apply(options)) => apply::run(rt, terminals, options),
        Ok(Task::Opcodes(options)) => opcodes::run(rt, terminals, options),
        Ok(Task::Image(options)) => image::run(rt, terminals, &options),
        Ok(Task::Export(options)) => export::run(rt, terminals, options),
        Ok(Task::Diff(options)) => difference::run(rt, terminals, options),
        Ok(Task::Unlock(options)) => unlock::run(rt, terminals, options),
        Ok(Task::Report(options)) => report::run(rt, terminals, options),
        Ok(Task::Survey(options)) => survey::run(rt, terminals, &options),
        Err(e) => Ok(tell(rt, terminals, &e)),
    }
}

// Tells what was asked for of the program itself, or how it is called.
fn tell<R: Print + Eprint>(rt: &R, terminals: Terminals, error: &Error) -> Status {
    match error.kind() {
        ErrorKind::OutOfMemory => refused(rt, terminals, Cause::OutOfMemory),
        ErrorKind::DisplayHelp | ErrorKind::DisplayVersion => shown(rt, terminals, error),
        _ => usage(rt, error),
    }
}

//! Runs a script of commands over a package list and the image of its stores (own rule).
#![tactic(auto)]

ghost use Rattle.std.specs.Prelude.{◌≡◌};
ghost use Rattle.setup_serving.specs.Serving.{exit_status};

use clap::Error;
use clap::error::ErrorKind;
use hii_bytes::Cause;
use setup_files::{
    FormSetFiles, Noted, OutFile, STANDARD_INPUT, STANDARD_OUTPUT, Status, Terminals, VERSION,
    fault, is_same_file, out_file, refused, shown, usage, words,
};
use setup_options::{Options, names_script, read_words};
pub use setup_serving::{Ended, Served, serve};
use std::io;
use std::io::{BufWriter, Printer};
use std::process::ExitCode;
use std::rt::{Env, Files};

// What a person is told who gives commands by hand.
const GREETING: &str = "setup: one command a line, --help lists them; \
Ctrl-D ends and writes --out, Ctrl-C ends without it";

// What a person is told who gives a script as a file.
const SCRIPT_IS_INPUT: &str = "the script is standard input: setup .. < script\n";

const LIST_AS_OUT: &str = "error: --out is the file of --list, which would be lost\n";

fn main(rt: HostRuntime) -> ExitCode {
    ExitCode::from(status(&rt, Terminals::of(&rt)).number())
}

fn status<R: Env + Files + Input + Print + Eprint + AllocGlobal>(
    rt: &R,
    terminals: Terminals,
) -> Status {
    let words = match words(rt, terminals) {
        Ok(words) => words,
        Err(status) => return status,
    };
    match read_words(rt.alloc(), VERSION, words.as_slice()) {
        Ok(options) => run(rt, terminals, options),
        Err(e) => tell(rt, terminals, &e, words.as_slice()),
    }
}

// Tells what was asked for of the program itself, or how it is called.
fn tell<R: Print + Eprint>(
    rt: &R,
    terminals: Terminals,
    error: &Error,
    words: &[String],
) -> Status {
    match error.kind() {
        ErrorKind::OutOfMemory => refused(rt, terminals, Cause::OutOfMemory),
        ErrorKind::DisplayVersion => shown(rt, terminals, error),
        ErrorKind::UnknownArgument if names_script(words) => {
            usage(rt, error);
            usage(rt, &SCRIPT_IS_INPUT)
        }
        _ => usage(rt, error),
    }
}

fn run<R: Files + Input + Print + Eprint + AllocGlobal>(
    rt: &R,
    terminals: Terminals,
    options: Options<'_>,
) -> Status {
    if is_same_file(rt, options.list, options.out) {
        return usage(rt, &LIST_AS_OUT);
    }
    let Ok(out) = out_file(rt, options.out) else {
        return refused(rt, terminals, Cause::OutOfMemory);
    };
    let files = match FormSetFiles::read(rt, terminals, options.list, options.stores) {
        Ok(files) => files,
        Err(status) => return status,
    };
    terminals.greet(rt, GREETING);
    let given = files.given(options.forms, options.lang);
    let script = Noted::new(rt.reader());
    let Ok(answers) = BufWriter::new(rt.alloc(), Noted::new(io::writer(rt))) else {
        return refused(rt, terminals, Cause::OutOfMemory);
    };
    let served = serve(rt.alloc(), given, script, answers, out);
    told(rt, terminals, options.out, served)
}

// Tells the read or the write that failed, if one did. What a writer that failed did not take is given up.
fn told<R: Files + Input + Print + Eprint>(
    rt: &R,
    terminals: Terminals,
    path: &str,
    served: Served<Noted<R::Reader>, Noted<Printer<'_, R>>, OutFile<'_, R>>,
) -> Status
    ensures { result ≡ exit_status served.entry.ended }
{
    let Served {
        ended,
        script,
        answers,
        out,
    } = served;
    let (answers, _) = answers.into_inner().into_parts();
    let (out, _) = out.into_inner().into_parts();
    let (file, reason) = match ended {
        Ended::ReadScript => (STANDARD_INPUT, script.into_inner().error()),
        Ended::WriteAnswers => (STANDARD_OUTPUT, answers.error()),
        _ => (path, out.error()),
    };
    match ended.fault() {
        Some(what) => fault(rt, terminals, what, file, reason),
        None => ended.status(),
    }
}

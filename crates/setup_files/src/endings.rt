//! How a run of a program ends, and how it is told.

ghost use Rattle.std.specs.Prelude.{◌≡◌, ◌≢◌, ◌⊎◌};
ghost use Rattle.hii_bytes.specs.Watching.{has_failed, Puts};
ghost use Rattle.session_steps.specs.Texts.{refused_text};
ghost use Rattle.setup_files.specs.Statuses.{status_of_refusal};

use crate::noted::Noted;
use crate::terminal::{STANDARD_OUTPUT, Terminals};
use browser_commands::put_refusal;
use hii_bytes::{Cause, Watched};
use std::fmt::Display;
use std::io;
use std::io::Write;

/// The status with which a program ends (own rule).
#[derive(Clone, Copy, PartialEq, Eq)]
pub enum Status {
    /// The run was whole.
    Done = 0,
    /// What was given is refused.
    Refused = 1,
    /// The words of the command line are wrong, or help was asked for.
    Usage = 2,
    /// A read or a write failed.
    Fault = 3,
    /// An allocation failed.
    NoMemory = 4,
}

impl Status {
    ghost use Rattle.setup_files.specs.Statuses.{number_of_status};

    /// The number that the system is told.
    pub fn number(self) -> u8
        ensures { result ≡ number_of_status self }
    {
        self as u8
    }
}

/// Tells on standard output what was asked for of the program itself.
pub fn shown<R: Print + Eprint>(rt: &R, terminals: Terminals, text: &impl Display) -> Status
    ensures { (result ≡ Status.Done) ⊎ (result ≡ Status.Fault) }
{
    match rt.print(text) {
        Ok(()) => Status::Done,
        Err(e) => fault(rt, terminals, "write answers", STANDARD_OUTPUT, Some(e)),
    }
}

/// Tells how the program is called.
pub fn usage(rt: &impl Eprint, text: &impl Display) -> Status
    ensures { result ≡ Status.Usage }
{
    let _ = rt.eprint(text);
    Status::Usage
}

/// Tells as an answer, without a place, by which cause something is refused.
pub fn refused<R: Print + Eprint>(rt: &R, terminals: Terminals, cause: Cause) -> Status
    ensures memory { cause ≡ Cause.OutOfMemory
        → (result ≡ Status.NoMemory) ⊎ (result ≡ Status.Fault) }
    ensures other { cause ≢ Cause.OutOfMemory
        → (result ≡ Status.Refused) ⊎ (result ≡ Status.Fault) }
    ensures refused { result ≢ Status.Done }
{
    let mut answers = Watched::new(Noted::new(io::writer(rt)));
    match tell_refused(cause, &mut answers) {
        Status::Fault => {
            let reason = answers.into_inner().error();
            fault(rt, terminals, "write answers", STANDARD_OUTPUT, reason)
        }
        status => status,
    }
}

/// Tells by which cause something is refused, and gives the status with which the program ends.
pub fn tell_refused<W: Write>(cause: Cause, answers: &mut Watched<W>) -> Status
    ensures text { Puts W.contents answers.old answers.new (refused_text cause) }
    ensures status { result ≡ status_of_refusal cause (has_failed answers.new) }
{
    put_refusal(cause, answers);
    if answers.failed() {
        return Status::Fault;
    }
    if cause == Cause::OutOfMemory {
        return Status::NoMemory;
    }
    Status::Refused
}

/// Tells which read or write failed, and at a terminal of which file it was, and the system's reason.
pub fn fault(
    rt: &impl Eprint,
    terminals: Terminals,
    what: &str,
    file: &str,
    reason: Option<io::Error>,
) -> Status
    ensures { result ≡ Status.Fault }
{
    let _ = eprintln!(rt; "FAULT {what}");
    terminals.explain(rt, file, reason);
    Status::Fault
}

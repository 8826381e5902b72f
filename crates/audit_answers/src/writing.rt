//! Answers, and the file that is written behind them.

ghost use Rattle.std.specs.Prelude.{◌≡◌, ◌≢◌, ◌⊎◌, false, true, IfErr};
ghost use Rattle.hii_bytes.specs.Watching.{Puts, has_failed};
ghost use Rattle.audit_answers.specs.Endings.{refused_at_told, refused_told, status_of};
ghost use Rattle.audit_answers.specs.code.Endings.{Commits, Passes, RefusesBy};

use crate::ended::Ended;
use audit_json::{Telling, put_refused, put_refused_at};
use browser_commands::{put_refusal, put_refusal_at};
use hii_bytes::{Cause, Fault, Watched};
use setup_files::{Noted, OutFile, STANDARD_OUTPUT, Status, Terminals, fault, refused};
use std::io;
use std::io::{BufWriter, Printer, Write};
use std::rt::Files;

/// Answers, which are held back until they are passed on.
pub type Answers<A> = Watched<BufWriter<A>>;

/// Standard output, which keeps the reason for which a write fails.
pub type Output<'a, R> = Noted<Printer<'a, R>>;

/// Answers on standard output, or the status of a run that has no memory for them, or where that could not be told.
pub fn answers<R: Print + Eprint + AllocGlobal>(
    rt: &R,
    terminals: Terminals,
) -> Result<Answers<Output<'_, R>>, Status>
    ensures memory { IfErr result (λ status. (status ≡ Status.NoMemory) ⊎ (status ≡ Status.Fault)) }
    ensures refused { IfErr result (λ status. status ≢ Status.Done) }
{
    match BufWriter::new(rt.alloc(), Noted::new(io::writer(rt))) {
        Ok(writer) => Ok(Watched::new(writer)),
        Err(_) => Err(refused(rt, terminals, Cause::OutOfMemory)),
    }
}

/// Tells the write that failed, if one did, and gives the status of a run. What answers that failed did not take is given up.
pub fn told<R: Print + Eprint>(
    rt: &R,
    terminals: Terminals,
    ended: Ended,
    answers: Answers<Output<'_, R>>,
) -> Status
    ensures { result ≡ status_of ended }
{
    let (output, _) = answers.into_inner().into_parts();
    match ended.fault() {
        Some(what) => fault(rt, terminals, what, STANDARD_OUTPUT, output.error()),
        None => ended.status(),
    }
}

/// The same of a run that writes the file of a path.
pub fn told_with_file<R: Files + Print + Eprint>(
    rt: &R,
    terminals: Terminals,
    ended: Ended,
    answers: Answers<Output<'_, R>>,
    path: &str,
    out: Watched<OutFile<'_, R>>,
) -> Status
    ensures { result ≡ status_of ended }
{
    let (file, _) = out.into_inner().into_parts();
    if ended == Ended::WriteOut {
        return fault(rt, terminals, "write out", path, file.error());
    }
    told(rt, terminals, ended, answers)
}

/// Passes on what is written, with which the run ends so.
pub fn finish<A: Write + Drop>(ended: Ended, answers: &mut Answers<A>) -> Ended
    ensures { Passes A.contents ended answers.old result answers.new }
{
    match answers.pass_on() {
        Ok(()) => ended,
        Err(_) => Ended::WriteAnswers,
    }
}

/// Ends a run that a fault refuses: it is told behind what is written, at its place; want of memory has none.
pub fn refuse<A: Write + Drop>(telling: Telling, fault: Fault, answers: &mut Answers<A>) -> Ended
    ensures { RefusesBy telling fault A.contents answers.old result answers.new }
{
    if fault.cause == Cause::OutOfMemory {
        put_cause(telling, Cause::OutOfMemory, answers);
        finish(Ended::NoMemory, answers)
    } else {
        put_fault(telling, fault, answers);
        finish(Ended::Refused, answers)
    }
}

// Tells by which cause a run is refused, where the cause has no place.
fn put_cause<W: Write>(telling: Telling, cause: Cause, out: &mut Watched<W>)
    ensures { Puts W.contents out.old out.new (refused_told telling cause) }
{
    match telling {
        Telling::Lines => put_refusal(cause, out),
        Telling::Objects => put_refused(cause, out),
    }
}

// Tells by which fault a run is refused.
fn put_fault<W: Write>(telling: Telling, fault: Fault, out: &mut Watched<W>)
    ensures { Puts W.contents out.old out.new (refused_at_told telling fault) }
{
    match telling {
        Telling::Lines => put_refusal_at(fault, out),
        Telling::Objects => put_refused_at(fault, out),
    }
}

/// Ends a run whose file is written behind its answers, which were passed on. Only a file that is flushed is there.
pub fn commit<A: Write + Drop, O: Write>(answers: &Answers<A>, out: &mut Watched<O>) -> Ended
    ensures unwritten { has_failed answers.now ≡ true
        → (result ≡ Ended.WriteAnswers) × (out.new ≡ out.old) }
    ensures written { has_failed answers.now ≡ false → Commits O.contents out.old result out.new }
{
    if answers.failed() {
        return Ended::WriteAnswers;
    }
    match out.flush() {
        Ok(()) => Ended::Done,
        Err(_) => Ended::WriteOut,
    }
}

//! A session over files that are read, apart from the system.

ghost use Rattle.std.specs.Prelude.{◌≡◌, ◌≢◌, [], IfSome, option_map, true, false};
ghost use Rattle.std.specs.Io.Buffered.{writer_buffer, writer_contents};
ghost use Rattle.hii_bytes.specs.Watching.{pen_of, inner_of, has_failed, has_passed_on};
ghost use Rattle.hii_varstore.specs.Image.{image_of};
ghost use Rattle.setup_files.specs.declared.given.Given.{Given};
ghost use Rattle.setup_serving.specs.AtFault.{LeavesBytes};
ghost use Rattle.setup_serving.specs.Headline.{ServesBytes};
ghost use Rattle.setup_serving.specs.Serving.{Starts, RunLeaves, ScriptLeaves, IsNamed, ends_before, ends_of, fault_of, exit_status};
ghost use Rattle.setup_serving.specs.code.Endings.{IsTold, IsImageTold, all_told};

use browser_core::{End, RunFault, Session, put_refusal, put_refusal_at};
use hii_bytes::{Cause, Fault, Watched};
use hii_varstore::Stores;
use setup_files::{Given, Status};
use std::alloc::Global;
use std::io::{BufWriter, Read, Write};

/// How a run ended.
#[derive(Clone, Copy, PartialEq, Eq)]
pub enum Ended {
    /// The script was run, and the image of its last submitted stores is written and passed on.
    Done,
    /// The bytes were refused, or the script is too long.
    Refused,
    /// The script could not be read.
    ReadScript,
    /// An answer could not be written.
    WriteAnswers,
    /// The image could not be written.
    WriteOut,
    /// An allocation failed.
    NoMemory,
}

impl Ended {
    /// The status with which the program ends.
    pub fn status(self) -> Status
        ensures { result ≡ exit_status self }
    {
        match self {
            Ended::Done => Status::Done,
            Ended::Refused => Status::Refused,
            Ended::ReadScript | Ended::WriteAnswers | Ended::WriteOut => Status::Fault,
            Ended::NoMemory => Status::NoMemory,
        }
    }

    /// Which read or write failed, if one did.
    pub fn fault(self) -> Option<&'static str>
        ensures { option_map (λ text. text.now) result ≡ fault_of self }
    {
        match self {
            Ended::ReadScript => Some("read script"),
            Ended::WriteAnswers => Some("write answers"),
            Ended::WriteOut => Some("write out"),
            Ended::Done | Ended::Refused | Ended::NoMemory => None,
        }
    }
}

/// How a run ended, and the reader and writers that it was given.
#[derive(Drop)]
pub struct Served<R, A: Write + Drop, O> {
    /// How it ended.
    pub ended: Ended,
    /// What is left of the script.
    pub script: Watched<R>,
    /// The writer of the answers, behind its buffer.
    pub answers: Watched<BufWriter<A>>,
    /// The writer of the image.
    pub out: Watched<O>,
}

/// Opens the session, runs the script, and writes the image that it leaves, and gives back the reader and the writers. What
/// refuses the bytes is told as an answer. What the buffer of the answers holds back stands before them. The image is flushed
/// once, at its end, and nowhere else.
pub fn serve<R: Read + Drop, A: Write + Drop, O: Write + Drop>(
    alloc: Global,
    given: Given<'_>,
    script: R,
    answers: BufWriter<A>,
    out: O,
) -> Served<R, A, O>
    // Where the script's bytes are known, and no reader or writer fails.
    ensures headline { IfSome (R.remaining script) (λ bytes. ServesBytes given.entry bytes
        (ends_before (R.remaining script) (writer_contents A.contents answers) (O.contents out))
        result.ended
        (ends_of R.remaining A.contents O.contents result.script result.answers result.out)) }
    // Where the script's bytes are known, and a reader or a writer fails.
    ensures at_fault { IfSome (R.remaining script) (λ bytes. LeavesBytes given.entry bytes
        (ends_before (R.remaining script) (writer_contents A.contents answers) (O.contents out))
        result.ended
        (ends_of R.remaining A.contents O.contents result.script result.answers result.out)) }
    // Where the script's bytes are known, with what is left of it.
    ensures whole { IfSome (R.remaining script) (λ bytes. ScriptLeaves given.entry bytes
        (ends_before (R.remaining script) (writer_contents A.contents answers) (O.contents out))
        result.ended
        (ends_of R.remaining A.contents O.contents result.script result.answers result.out)) }
    // At any reader and writers, and at their faults.
    ensures serves { RunLeaves given.entry
        (ends_before (R.remaining script) (writer_contents A.contents answers) (O.contents out))
        result.ended
        (ends_of R.remaining A.contents O.contents result.script result.answers result.out) }
    // Which of them have failed.
    ensures named { IsNamed result.ended
        (has_failed result.script) (has_failed result.answers) (has_failed result.out) }
    // No answer is held back, but where the answers fail.
    ensures passed_on { result.ended ≢ Ended.WriteAnswers
        → writer_buffer (inner_of result.answers) ≡ [] }
    ensures image_passed_on { result.ended ≡ Ended.Done → has_passed_on result.out ≡ true }
    // The writer of the image is as it was, without a flush, but where the image is written.
    ensures untouched { result.ended ≢ Ended.Done → result.ended ≢ Ended.WriteOut
        → inner_of result.out ≡ out }
{
    let mut script = Watched::new(script);
    let mut answers = Watched::new(answers);
    let mut out = Watched::new(out);
    let ended = serve_watched(alloc, given, &mut script, &mut answers, &mut out);
    Served {
        ended,
        script,
        answers,
        out,
    }
}

// RunLeaves over a reader and writers of which none has failed.
fn serve_watched<R: Read, A: Write + Drop, O: Write>(
    alloc: Global,
    given: Given<'_>,
    script: &mut Watched<R>,
    answers: &mut Watched<BufWriter<A>>,
    out: &mut Watched<O>,
) -> Ended
    requires script { has_failed script.old ≡ false }
    requires out { has_failed out.old ≡ false }
    ensures serves { RunLeaves given.entry
        (all_told (ends_of R.remaining A.contents O.contents script.old answers.old out.old)) result
        (ends_of R.remaining A.contents O.contents script.new answers.new out.new) }
    ensures named { IsNamed result
        (has_failed script.new) (has_failed answers.new) (has_failed out.new) }
    ensures passed_on { result ≢ Ended.WriteAnswers → writer_buffer (inner_of answers.new) ≡ [] }
    ensures image_passed_on { result ≡ Ended.Done → has_passed_on out.new ≡ true }
    ensures untouched { result ≢ Ended.Done → result ≢ Ended.WriteOut → out.new ≡ out.old }
{
    match Session::open(alloc, given.list, given.forms, given.stores, given.lang) {
        Ok(mut session) => run(&mut session, script, answers, out),
        Err(fault) => refuse(fault, answers),
    }
}

// Runs the script over a session that was opened, passes its answers on, and then writes the image that it leaves.
fn run<R: Read, A: Write + Drop, O: Write>(
    session: &mut Session<'_>,
    script: &mut Watched<R>,
    answers: &mut Watched<BufWriter<A>>,
    out: &mut Watched<O>,
) -> Ended
    requires out { has_failed out.old ≡ false }
    ensures serves { (given : Given) → Starts given session.old → RunLeaves given
        (all_told (ends_of R.remaining A.contents O.contents script.old answers.old out.old)) result
        (ends_of R.remaining A.contents O.contents script.new answers.new out.new) }
    ensures named { IsNamed result
        (has_failed script.new) (has_failed answers.new) (has_failed out.new) }
    ensures passed_on { result ≢ Ended.WriteAnswers → writer_buffer (inner_of answers.new) ≡ [] }
    ensures image_passed_on { result ≡ Ended.Done → has_passed_on out.new ≡ true }
    ensures untouched { result ≢ Ended.Done → result ≢ Ended.WriteOut → out.new ≡ out.old }
{
    let ran = session.run_script(script, answers);
    let Ok(()) = answers.pass_on() else {
        return Ended::WriteAnswers;
    };
    match ran {
        Ok(End::Done) => write_image(session.committed(), out),
        Ok(End::TooLong) => Ended::Refused,
        Err(RunFault::Read) => Ended::ReadScript,
        Err(RunFault::Write) => Ended::WriteAnswers,
    }
}

// Writes the image of the stores, and passes it on.
fn write_image<O: Write>(stores: &Stores, out: &mut Watched<O>) -> Ended
    ensures told { IsImageTold (image_of stores.now) (pen_of O.contents out.old) result
        (pen_of O.contents out.new) }
    ensures passed_on { result ≡ Ended.Done → has_passed_on out.new ≡ true }
{
    let Ok(()) = stores.image_into(out) else {
        return Ended::WriteOut;
    };
    match out.flush() {
        Ok(()) => Ended::Done,
        Err(_) => Ended::WriteOut,
    }
}

// Tells why no session was opened.
fn refuse<A: Write + Drop>(fault: Fault, answers: &mut Watched<BufWriter<A>>) -> Ended
    ensures told { IsTold fault (pen_of (writer_contents A.contents) answers.old) result
        (pen_of (writer_contents A.contents) answers.new) }
    ensures passed_on { result ≢ Ended.WriteAnswers → writer_buffer (inner_of answers.new) ≡ [] }
{
    if fault.cause == Cause::OutOfMemory {
        put_refusal(Cause::OutOfMemory, answers);
        match answers.pass_on() {
            Ok(()) => Ended::NoMemory,
            Err(_) => Ended::WriteAnswers,
        }
    } else {
        put_refusal_at(fault, answers);
        match answers.pass_on() {
            Ok(()) => Ended::Refused,
            Err(_) => Ended::WriteAnswers,
        }
    }
}

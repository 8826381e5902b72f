//! `split`: the package lists of a dump.

ghost use Rattle.std.specs.Prelude.{◌≡◌, ◌≢◌, IfErr};
ghost use Rattle.audit_json.specs.Telling.{asked};
ghost use Rattle.audit_answers.specs.Endings.{Tells, TellsAndWrites};
ghost use Rattle.audit_commands.specs.Splitting.{SaysLists, SaysTaken};

use audit_answers::{Answers, Ended, answers, commit, finish, refuse, told, told_with_file};
use audit_json::Telling;
use audit_options::{SplitOptions, TakenList};
use dump_audit::{put_split, put_taken};
use hii_bytes::{Cause, Fault, Watched};
use setup_files::{Status, Terminals, WholeFile, file, is_same_file, out_file, refused, usage};
use std::alloc::Global;
use std::io::Write;
use std::rt::Files;

const DUMP_AS_OUT: &str = "error: --out is the file of --dump\n";

/// Tells the lists of a dump, or takes one of them.
pub fn run<R: Files + Print + Eprint + AllocGlobal>(
    rt: &R,
    terminals: Terminals,
    options: SplitOptions<'_>,
) -> Result<Status, Status>
    ensures { IfErr result (λ status. status ≢ Status.Done) }
{
    if let Some(taken) = options.taken {
        return run_taking(rt, terminals, options, taken);
    }
    let dump = file(rt, terminals, options.dump, "read dump")?;
    let mut answers = answers(rt, terminals)?;
    let ended = tell(rt.alloc(), options, &dump, &mut answers);
    Ok(told(rt, terminals, ended, answers))
}

// Takes a list of a dump.
fn run_taking<R: Files + Print + Eprint + AllocGlobal>(
    rt: &R,
    terminals: Terminals,
    options: SplitOptions<'_>,
    taken: TakenList<'_>,
) -> Result<Status, Status>
    ensures { IfErr result (λ status. status ≢ Status.Done) }
{
    if is_same_file(rt, options.dump, taken.out) {
        return Err(usage(rt, &DUMP_AS_OUT));
    }
    let Ok(out) = out_file(rt, taken.out) else {
        return Err(refused(rt, terminals, Cause::OutOfMemory));
    };
    let dump = file(rt, terminals, options.dump, "read dump")?;
    let mut answers = answers(rt, terminals)?;
    let mut out = Watched::new(out);
    let ended = take(rt.alloc(), options, taken, &dump, &mut answers, &mut out);
    Ok(told_with_file(rt, terminals, ended, answers, taken.out, out))
}

// Tells the lists of a dump.
fn tell<A: Write + Drop>(
    alloc: Global,
    options: SplitOptions<'_>,
    dump: &WholeFile<'_>,
    answers: &mut Answers<A>,
) -> Ended
    requires { dump.now.path.now ≡ options.dump.now }
    ensures { Tells (SaysLists (asked options.entry.json) dump.now.bytes.items) A.contents answers.old result answers.new }
{
    let telling = Telling::of(options.json);
    match put_split(telling, alloc, dump.bytes.as_slice(), answers) {
        Ok(true) => finish(Ended::Done, answers),
        Ok(false) => finish(Ended::Refused, answers),
        Err(failed) => refuse(telling, Fault::from(failed), answers),
    }
}

// Tells the list of a number, and then writes its bytes into a file.
fn take<A: Write + Drop, O: Write>(
    alloc: Global,
    options: SplitOptions<'_>,
    taken: TakenList<'_>,
    dump: &WholeFile<'_>,
    answers: &mut Answers<A>,
    out: &mut Watched<O>,
) -> Ended
    requires { dump.now.path.now ≡ options.dump.now }
    ensures { TellsAndWrites (SaysTaken (asked options.entry.json) dump.now.bytes.items taken.entry.number)
        A.contents O.contents answers.old out.old result answers.new out.new }
{
    let telling = Telling::of(options.json);
    let bytes = dump.bytes.as_slice();
    match put_taken(telling, alloc, bytes, taken.number, answers, out) {
        Ok(true) => commit(answers, out),
        Ok(false) => finish(Ended::Refused, answers),
        Err(failed) => refuse(telling, Fault::from(failed), answers),
    }
}

//! `check`: by which faults the forms packages of a list are refused.

ghost use Rattle.std.specs.Prelude.{◌≡◌, ◌≢◌, IfErr};
ghost use Rattle.audit_json.specs.Telling.{asked};
ghost use Rattle.audit_answers.specs.Endings.{Tells};
ghost use Rattle.audit_answers.specs.Listing.{SaysOfList};
ghost use Rattle.audit_commands.specs.Checking.{SaysCheck};

use audit_answers::{
    Answers, Ended, GivenList, answers, finish, given_list, refuse, refuse_list, told,
};
use audit_json::Telling;
use audit_options::CheckOptions;
use check_audit::put_check;
use hii_bytes::Fault;
use setup_files::{Status, Terminals, WholeFile, file};
use std::alloc::Global;
use std::io::Write;
use std::rt::Files;

/// Tells of each forms package of a list whether setup opens it over an image of the right size.
pub fn run<R: Files + Print + Eprint + AllocGlobal>(
    rt: &R,
    terminals: Terminals,
    options: CheckOptions<'_>,
) -> Result<Status, Status>
    ensures { IfErr result (λ status. status ≢ Status.Done) }
{
    let list = file(rt, terminals, options.path, "read list")?;
    let mut answers = answers(rt, terminals)?;
    let ended = tell(rt.alloc(), options, &list, &mut answers);
    Ok(told(rt, terminals, ended, answers))
}

// Tells of the forms packages of the list that the options name.
fn tell<A: Write + Drop>(
    alloc: Global,
    options: CheckOptions<'_>,
    file: &WholeFile<'_>,
    answers: &mut Answers<A>,
) -> Ended
    requires { file.now.path.now ≡ options.path.now }
    ensures { Tells (SaysOfList (asked options.entry.json) options.entry.take file.now.bytes.items
        (λ list. SaysCheck (asked options.entry.json) list.bytes list.origin.place))
        A.contents answers.old result answers.new }
{
    let telling = Telling::of(options.json);
    match given_list(file.bytes.as_slice(), options.take) {
        Ok(list) => tell_list(alloc, telling, list, answers),
        Err(none) => refuse_list(telling, none, answers),
    }
}

// Tells of the forms packages of a list.
fn tell_list<A: Write + Drop>(
    alloc: Global,
    telling: Telling,
    list: GivenList<'_>,
    answers: &mut Answers<A>,
) -> Ended
    ensures { Tells (SaysCheck telling list.entry.bytes.now list.entry.origin.place)
        A.contents answers.old result answers.new }
{
    match put_check(alloc, telling, list.bytes, list.origin.place, answers) {
        Ok(true) => finish(Ended::Done, answers),
        Ok(false) => finish(Ended::Refused, answers),
        Err(failed) => refuse(telling, Fault::from(failed), answers),
    }
}

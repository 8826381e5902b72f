//! `questions`: each question of a form set, with what forbids its change.

ghost use Rattle.std.specs.Prelude.{◌≡◌, ◌≢◌, IfErr};
ghost use Rattle.audit_answers.specs.Endings.{Tells};
ghost use Rattle.audit_commands.specs.Auditing.{SaysQuestions, asked_of};
ghost use Rattle.audit_answers.specs.Listing.{SaysOfList};
ghost use Rattle.audit_json.specs.Telling.{asked};
ghost use Rattle.audit_answers.specs.code.Listing.{listed};

use crate::auditing::put_audit;
use crate::givens::given_of;
use audit_answers::{
    Answers, Ended, GivenList, answers, finish, given_list, refuse, refuse_list, told,
};
use audit_json::Telling;
use audit_options::FormSetOptions;
use setup_files::{FormSetFiles, Status, Terminals};
use std::alloc::Global;
use std::io::Write;
use std::rt::Files;

/// Tells the forms and the questions of a list over an image of its stores.
pub fn run<R: Files + Print + Eprint + AllocGlobal>(
    rt: &R,
    terminals: Terminals,
    options: FormSetOptions<'_>,
) -> Result<Status, Status>
    ensures { IfErr result (λ status. status ≢ Status.Done) }
{
    let files = FormSetFiles::read(rt, terminals, options.list.path, options.stores)?;
    let mut answers = answers(rt, terminals)?;
    let ended = tell(rt.alloc(), options, &files, &mut answers);
    Ok(told(rt, terminals, ended, answers))
}

// Tells the forms and the questions of the list that the options name.
fn tell<A: Write + Drop>(
    alloc: Global,
    options: FormSetOptions<'_>,
    files: &FormSetFiles<'_>,
    answers: &mut Answers<A>,
) -> Ended
    requires list { files.now.list.path.now ≡ options.list.path.now }
    requires stores { files.now.stores.path.now ≡ options.stores.now }
    ensures { Tells (SaysOfList (asked options.entry.json) options.entry.list.take files.now.list.bytes.items
        (λ list. SaysQuestions (asked options.entry.json) (asked_of options.entry files.now list) list.origin))
        A.contents answers.old result answers.new }
{
    let telling = Telling::of(options.json);
    match given_list(files.list.bytes.as_slice(), options.list.take) {
        Ok(list) => tell_of(telling, alloc, options, files, list, answers),
        Err(none) => refuse_list(telling, none, answers),
    }
}

// Tells the forms and the questions of a list.
fn tell_of<A: Write + Drop>(
    telling: Telling,
    alloc: Global,
    options: FormSetOptions<'_>,
    files: &FormSetFiles<'_>,
    list: GivenList<'_>,
    answers: &mut Answers<A>,
) -> Ended
    ensures { Tells (SaysQuestions telling (asked_of options.entry files.now (listed list.entry)) list.entry.origin)
        A.contents answers.old result answers.new }
{
    let given = given_of(options, files, list);
    match put_audit(telling, alloc, given, list.origin, answers) {
        Ok(()) => finish(Ended::Done, answers),
        Err(fault) => refuse(telling, fault, answers),
    }
}

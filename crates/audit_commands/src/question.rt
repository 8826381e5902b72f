//! `question`: what is known of one question.

ghost use Rattle.std.specs.Prelude.{◌≡◌, ◌≢◌, IfErr};
ghost use Rattle.audit_json.specs.Telling.{asked};
ghost use Rattle.audit_answers.specs.Endings.{Tells};
ghost use Rattle.audit_commands.specs.Auditing.{SaysQuestion, asked_of};
ghost use Rattle.audit_answers.specs.Listing.{SaysOfList};
ghost use Rattle.audit_answers.specs.code.Listing.{listed};

use crate::auditing::put_question_audit;
use crate::givens::given_of;
use audit_answers::{
    Answers, Ended, GivenList, answers, finish, given_list, refuse, refuse_list, told,
};
use audit_json::Telling;
use audit_options::QuestionOptions;
use setup_files::{FormSetFiles, Status, Terminals};
use std::alloc::Global;
use std::io::Write;
use std::rt::Files;

/// Tells what is known of a question of a list over an image of its stores.
pub fn run<R: Files + Print + Eprint + AllocGlobal>(
    rt: &R,
    terminals: Terminals,
    options: QuestionOptions<'_>,
) -> Result<Status, Status>
    ensures { IfErr result (λ status. status ≢ Status.Done) }
{
    let form_set = options.form_set;
    let files = FormSetFiles::read(rt, terminals, form_set.list.path, form_set.stores)?;
    let mut answers = answers(rt, terminals)?;
    let ended = tell(rt.alloc(), options, &files, &mut answers);
    Ok(told(rt, terminals, ended, answers))
}

// Tells what is known of the question that the options ask for.
fn tell<A: Write + Drop>(
    alloc: Global,
    options: QuestionOptions<'_>,
    files: &FormSetFiles<'_>,
    answers: &mut Answers<A>,
) -> Ended
    requires list { files.now.list.path.now ≡ options.form_set.list.path.now }
    requires stores { files.now.stores.path.now ≡ options.form_set.stores.now }
    ensures { Tells (SaysOfList (asked options.entry.form_set.json) options.entry.form_set.list.take files.now.list.bytes.items
        (λ list. SaysQuestion (asked options.entry.form_set.json) (asked_of options.entry.form_set files.now list) list.origin
        options.entry.id)) A.contents answers.old result answers.new }
{
    match given_list(files.list.bytes.as_slice(), options.form_set.list.take) {
        Ok(list) => tell_of(alloc, options, files, list, answers),
        Err(none) => refuse_list(Telling::of(options.form_set.json), none, answers),
    }
}

// Tells what is known of a question of a list.
fn tell_of<A: Write + Drop>(
    alloc: Global,
    options: QuestionOptions<'_>,
    files: &FormSetFiles<'_>,
    list: GivenList<'_>,
    answers: &mut Answers<A>,
) -> Ended
    ensures { Tells (SaysQuestion (asked options.entry.form_set.json) (asked_of options.entry.form_set files.now (listed list.entry))
        list.entry.origin options.entry.id) A.contents answers.old result answers.new }
{
    let given = given_of(options.form_set, files, list);
    let telling = Telling::of(options.form_set.json);
    match put_question_audit(telling, alloc, given, list.origin, options.id, answers) {
        Ok(true) => finish(Ended::Done, answers),
        Ok(false) => finish(Ended::Refused, answers),
        Err(fault) => refuse(telling, fault, answers),
    }
}

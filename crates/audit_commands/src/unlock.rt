//! `unlock`: what opens the questions that may not be changed.

ghost use Rattle.std.specs.Prelude.{◌≡◌, ◌≢◌, ◌+◌, ◌<◌, ◌^◌, List, ℕ, IfErr, IfOk, OnErr, length};
ghost use Rattle.hii_bytes.specs.Faults.{Refuses, out_of_memory};
ghost use Rattle.hii_bytes.specs.Watching.{Puts};
ghost use Rattle.session_steps.specs.Opening.{IsOpenFault};
ghost use Rattle.audit_json.specs.Telling.{asked};
ghost use Rattle.audit_answers.specs.Endings.{Tells};
ghost use Rattle.audit_answers.specs.Listing.{SaysOfList};
ghost use Rattle.audit_answers.specs.code.Listing.{listed};
ghost use Rattle.audit_commands.specs.Auditing.{Asked, asked_of};
ghost use Rattle.audit_commands.specs.Unlocking.{BeginsUnlocks, SaysUnlock, Unlocks};
ghost use Rattle.audit_commands.specs.code.Givens.{given_asked};
ghost use Rattle.audit_commands.specs.code.Opened.{IsOpened};
ghost use Rattle.question_audit.specs.declared.origin.Origin.{Origin};

use crate::givens::given_of;
use crate::opened::Opened;
use audit_answers::{
    Answers, Ended, GivenList, answers, finish, given_list, refuse, refuse_list, told,
};
use audit_json::Telling;
use audit_options::UnlockOptions;
use hii_bytes::{Cause, Fault, Watched};
use question_audit::Origin;
use setup_files::{FormSetFiles, Given, Status, Terminals};
use std::alloc::Global;
use std::io::Write;
use std::rt::Files;
use unlock_audit::put_unlock;

/// Tells what opens the questions of a list over an image of its stores that may not be changed, or the question of an id.
pub fn run<R: Files + Print + Eprint + AllocGlobal>(
    rt: &R,
    terminals: Terminals,
    options: UnlockOptions<'_>,
) -> Result<Status, Status>
    ensures { IfErr result (λ status. status ≢ Status.Done) }
{
    let form_set = options.form_set;
    let files = FormSetFiles::read(rt, terminals, form_set.list.path, form_set.stores)?;
    let mut answers = answers(rt, terminals)?;
    let ended = tell(rt.alloc(), options, &files, &mut answers);
    Ok(told(rt, terminals, ended, answers))
}

// Tells it of the list that the options name.
fn tell<A: Write + Drop>(
    alloc: Global,
    options: UnlockOptions<'_>,
    files: &FormSetFiles<'_>,
    answers: &mut Answers<A>,
) -> Ended
    requires list { files.now.list.path.now ≡ options.form_set.list.path.now }
    requires stores { files.now.stores.path.now ≡ options.form_set.stores.now }
    ensures { Tells (SaysOfList (asked options.entry.form_set.json) options.entry.form_set.list.take files.now.list.bytes.items
        (λ list. SaysUnlock (asked options.entry.form_set.json) (asked_of options.entry.form_set files.now list) options.entry.id))
        A.contents answers.old result answers.new }
{
    match given_list(files.list.bytes.as_slice(), options.form_set.list.take) {
        Ok(list) => tell_of(alloc, options, files, list, answers),
        Err(none) => refuse_list(Telling::of(options.form_set.json), none, answers),
    }
}

// Tells it of a list.
fn tell_of<A: Write + Drop>(
    alloc: Global,
    options: UnlockOptions<'_>,
    files: &FormSetFiles<'_>,
    list: GivenList<'_>,
    answers: &mut Answers<A>,
) -> Ended
    ensures { Tells (SaysUnlock (asked options.entry.form_set.json) (asked_of options.entry.form_set files.now (listed list.entry))
        options.entry.id) A.contents answers.old result answers.new }
{
    let given = given_of(options.form_set, files, list);
    let telling = Telling::of(options.form_set.json);
    match put_unlock_audit(telling, alloc, given, list.origin, options.id, answers) {
        Ok(true) => finish(Ended::Done, answers),
        Ok(false) => finish(Ended::Refused, answers),
        Err(fault) => refuse(telling, fault, answers),
    }
}

// Tells it of what is given, where the list begins at a place of the file, and answers whether there is a question of the id; or
// gives the least fault of what is given, by which a session over it is refused, or that an allocation failed. Then nothing is
// written, but where an allocation failed the beginning may be.
fn put_unlock_audit<W: Write>(
    telling: Telling,
    alloc: Global,
    given: Given<'_>,
    origin: Origin,
    id: Option<u16>,
    out: &mut Watched<W>,
) -> Result<bool, Fault>
    requires { origin.place + length given.list.now < 2 ^ 64 }
    ensures told { IfOk result (λ is_there. (text : List ℕ) × Unlocks telling is_there (given_asked given.entry) id text
        × Puts W.contents out.old out.new text) }
    ensures refused { IfErr result (Refuses (IsOpenFault given.entry.list.now given.entry.forms given.entry.stores.now)) }
    ensures nothing { IfErr result (λ fault. fault.cause ≢ Cause.OutOfMemory → out.new ≡ out.old) }
    ensures begun { OnErr result ((text : List ℕ) × BeginsUnlocks telling (given_asked given.entry) id text
        × Puts W.contents out.old out.new text) }
{
    let opened = Opened::read(alloc, given, origin)?;
    put_unlocked(telling, alloc, opened, id, out)
}

// Tells it in a session.
fn put_unlocked<W: Write>(
    telling: Telling,
    alloc: Global,
    opened: Opened<'_>,
    id: Option<u16>,
    out: &mut Watched<W>,
) -> Result<bool, Fault>
    ensures told { (asked : Asked) → (origin : Origin) → IsOpened asked origin opened.entry
        → IfOk result (λ is_there. (text : List ℕ) × Unlocks telling is_there asked id text
        × Puts W.contents out.old out.new text) }
    ensures begun { (asked : Asked) → (origin : Origin) → IsOpened asked origin opened.entry
        → OnErr result ((text : List ℕ) × BeginsUnlocks telling asked id text × Puts W.contents out.old out.new text) }
    ensures memory { IfErr result (λ fault. fault ≡ out_of_memory) }
{
    let Opened { mut browser, .. } = opened;
    put_unlock(alloc, telling, &mut browser, id, out)
}

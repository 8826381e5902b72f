//! `diff`: what another image holds otherwise.

ghost use Rattle.std.specs.Prelude.{◌≡◌, ◌≢◌, ℕ, List, IfErr, OnErr, OnOk};
ghost use Rattle.hii_bytes.specs.Faults.{Refuses};
ghost use Rattle.hii_bytes.specs.Watching.{Puts};
ghost use Rattle.audit_commands.specs.Auditing.{asked_of};
ghost use Rattle.audit_commands.specs.Differing.{IsDiffFault, SaysDifference, TellsDifference};
ghost use Rattle.audit_answers.specs.Endings.{Tells};
ghost use Rattle.audit_answers.specs.Listing.{SaysOfList};
ghost use Rattle.audit_commands.specs.code.Givens.{given_asked};
ghost use Rattle.audit_json.specs.Telling.{asked};

use crate::givens::given_of;
use audit_answers::{Answers, Ended, answers, finish, given_list, refuse, refuse_list, told};
use audit_json::Telling;
use audit_options::{DiffOptions, FormSetOptions};
use browser_commands::Browser;
use hii_bytes::{Fault, Watched};
use image_audit::put_difference;
use setup_files::{FormSetFiles, Given, Status, Terminals, WholeFile, file};
use std::alloc::Global;
use std::io::Write;
use std::rt::Files;

/// Tells what another image of the stores of a list holds otherwise.
pub fn run<R: Files + Print + Eprint + AllocGlobal>(
    rt: &R,
    terminals: Terminals,
    options: DiffOptions<'_>,
) -> Result<Status, Status>
    ensures { IfErr result (λ status. status ≢ Status.Done) }
{
    let form_set = options.form_set;
    let files = FormSetFiles::read(rt, terminals, form_set.list.path, form_set.stores)?;
    let other = file(rt, terminals, options.with, "read with")?;
    let mut answers = answers(rt, terminals)?;
    let ended = tell(rt.alloc(), form_set, &files, &other, &mut answers);
    Ok(told(rt, terminals, ended, answers))
}

// Tells what another image holds otherwise, of the list that the options name.
fn tell<A: Write + Drop>(
    alloc: Global,
    options: FormSetOptions<'_>,
    files: &FormSetFiles<'_>,
    other: &WholeFile<'_>,
    answers: &mut Answers<A>,
) -> Ended
    requires list { files.now.list.path.now ≡ options.list.path.now }
    requires stores { files.now.stores.path.now ≡ options.stores.now }
    ensures { Tells (SaysOfList (asked options.entry.json) options.entry.list.take files.now.list.bytes.items
        (λ list. SaysDifference (asked options.entry.json) (asked_of options.entry files.now list) other.now.bytes.items))
        A.contents answers.old result answers.new }
{
    let telling = Telling::of(options.json);
    match given_list(files.list.bytes.as_slice(), options.list.take) {
        Ok(list) => {
            let given = given_of(options, files, list);
            tell_of(telling, alloc, given, other.bytes.as_slice(), answers)
        }
        Err(none) => refuse_list(telling, none, answers),
    }
}

// Tells what another image holds otherwise.
fn tell_of<A: Write + Drop>(
    telling: Telling,
    alloc: Global,
    given: Given<'_>,
    other: &[u8],
    answers: &mut Answers<A>,
) -> Ended
    ensures { Tells (SaysDifference telling (given_asked given.entry) other.now) A.contents answers.old result answers.new }
{
    match put_lines(telling, alloc, given, other, answers) {
        Ok(()) => finish(Ended::Done, answers),
        Err(fault) => refuse(telling, fault, answers),
    }
}

// Tells what another image holds otherwise; or gives the least fault of what is given, or that an allocation failed. Then nothing is
// written.
fn put_lines<W: Write>(
    telling: Telling,
    alloc: Global,
    given: Given<'_>,
    other: &[u8],
    out: &mut Watched<W>,
) -> Result<(), Fault>
    ensures told { OnOk result ((text : List ℕ) × TellsDifference telling (given_asked given.entry) other.now text
        × Puts W.contents out.old out.new text) }
    ensures refused { IfErr result (Refuses (IsDiffFault (given_asked given.entry) other.now)) }
    ensures nothing { OnErr result (out.new ≡ out.old) }
{
    let Given {
        list,
        forms,
        stores,
        lang,
    } = given;
    let one = Browser::open(alloc, list, forms, stores, lang)?;
    let other = Browser::open(alloc, list, forms, other, lang)?;
    put_difference(telling, alloc, one.page(), other.page(), out)
}

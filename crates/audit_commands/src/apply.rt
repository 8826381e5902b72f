//! `apply`: a script that is run as a whole.

ghost use Rattle.std.specs.Prelude.{◌≡◌, ◌≢◌, ◌+◌, ◌<◌, ◌^◌, [], false, IfErr, length};
ghost use Rattle.std.specs.Io.Buffered.{writer_buffer, writer_contents};
ghost use Rattle.hii_bytes.specs.Watching.{Flushes, has_failed, inner_of, pen_of};
ghost use Rattle.audit_json.specs.Telling.{asked};
ghost use Rattle.store_audit.specs.Images.{WritesImage};
ghost use Rattle.audit_answers.specs.Endings.{TellsAndWrites};
ghost use Rattle.audit_answers.specs.Listing.{SaysOfList};
ghost use Rattle.audit_commands.specs.Applying.{SaysApply};
ghost use Rattle.audit_commands.specs.Auditing.{Asked, asked_of};
ghost use Rattle.audit_commands.specs.code.Givens.{given_asked};
ghost use Rattle.audit_commands.specs.code.Opened.{IsOpened};
ghost use Rattle.question_audit.specs.declared.origin.Origin.{Origin};

use crate::givens::given_of;
use crate::opened::Opened;
use audit_answers::{
    Answers, Ended, answers, commit, finish, given_list, refuse, refuse_list, told_with_file,
};
use audit_json::Telling;
use audit_options::ApplyOptions;
use hii_bytes::{Cause, Watched};
use hii_varstore::Stores;
use question_audit::Origin;
use setup_files::{
    FormSetFiles, Given, Status, Terminals, WholeFile, file, is_same_file, out_file, refused, usage,
};
use std::alloc::Global;
use std::io::Write;
use std::rt::Files;

const LIST_AS_OUT: &str = "error: --out is the file of --list\n";

const SCRIPT_AS_OUT: &str = "error: --out is the file of --script\n";

/// Runs a script over a list and an image of its stores, and writes the image that it leaves, where each of its commands is answered with
/// OK.
pub fn run<R: Files + Print + Eprint + AllocGlobal>(
    rt: &R,
    terminals: Terminals,
    options: ApplyOptions<'_>,
) -> Result<Status, Status>
    ensures { IfErr result (λ status. status ≢ Status.Done) }
{
    let form_set = options.form_set;
    if is_same_file(rt, form_set.list.path, options.out) {
        return Err(usage(rt, &LIST_AS_OUT));
    }
    if is_same_file(rt, options.script, options.out) {
        return Err(usage(rt, &SCRIPT_AS_OUT));
    }
    let Ok(out) = out_file(rt, options.out) else {
        return Err(refused(rt, terminals, Cause::OutOfMemory));
    };
    let files = FormSetFiles::read(rt, terminals, form_set.list.path, form_set.stores)?;
    let script = file(rt, terminals, options.script, "read script")?;
    let mut answers = answers(rt, terminals)?;
    let mut out = Watched::new(out);
    let ended = apply(rt.alloc(), options, &files, &script, &mut answers, &mut out);
    Ok(told_with_file(rt, terminals, ended, answers, options.out, out))
}

// Runs a script over the list that the options name.
fn apply<A: Write + Drop, O: Write>(
    alloc: Global,
    options: ApplyOptions<'_>,
    files: &FormSetFiles<'_>,
    script: &WholeFile<'_>,
    answers: &mut Answers<A>,
    out: &mut Watched<O>,
) -> Ended
    requires list { files.now.list.path.now ≡ options.form_set.list.path.now }
    requires stores { files.now.stores.path.now ≡ options.form_set.stores.now }
    ensures { TellsAndWrites (λ bytes. SaysOfList (asked options.entry.form_set.json)
        options.entry.form_set.list.take files.now.list.bytes.items
        (λ list. SaysApply (asked options.entry.form_set.json) (asked_of options.entry.form_set files.now list)
        list.origin script.now.bytes.items bytes))
        A.contents O.contents answers.old out.old result answers.new out.new }
{
    let form_set = options.form_set;
    let telling = Telling::of(form_set.json);
    match given_list(files.list.bytes.as_slice(), form_set.list.take) {
        Ok(list) => {
            let given = given_of(form_set, files, list);
            let script = script.bytes.as_slice();
            apply_to(telling, alloc, given, list.origin, script, answers, out)
        }
        Err(none) => refuse_list(telling, none, answers),
    }
}

// Runs a script over what is given, where the list begins at a place of the file.
fn apply_to<A: Write + Drop, O: Write>(
    telling: Telling,
    alloc: Global,
    given: Given<'_>,
    origin: Origin,
    script: &[u8],
    answers: &mut Answers<A>,
    out: &mut Watched<O>,
) -> Ended
    requires { origin.place + length given.list.now < 2 ^ 64 }
    ensures { TellsAndWrites (SaysApply telling (given_asked given.entry) origin script.now)
        A.contents O.contents answers.old out.old result answers.new out.new }
{
    match Opened::read(alloc, given, origin) {
        Ok(opened) => apply_in(telling, alloc, opened, script, answers, out),
        Err(fault) => refuse(telling, fault, answers),
    }
}

// Runs a script in a session.
fn apply_in<A: Write + Drop, O: Write>(
    telling: Telling,
    alloc: Global,
    opened: Opened<'_>,
    script: &[u8],
    answers: &mut Answers<A>,
    out: &mut Watched<O>,
) -> Ended
    ensures { (asked : Asked) → (origin : Origin) → IsOpened asked origin opened.entry
        → TellsAndWrites (SaysApply telling asked origin script.now)
        A.contents O.contents answers.old out.old result answers.new out.new }
{
    let Opened { mut browser, place } = opened;
    match script_audit::apply(alloc, telling, &mut browser, place.place, script, answers) {
        Ok(true) => {
            write_image(browser.committed(), answers, out);
            commit(answers, out)
        }
        Ok(false) => finish(Ended::Refused, answers),
        Err(fault) => refuse(telling, fault, answers),
    }
}

// Passes on what is written, and then writes the image of stores into a file, unless the answers fail.
fn write_image<A: Write + Drop, O: Write>(
    stores: &Stores,
    answers: &mut Answers<A>,
    out: &mut Watched<O>,
)
    ensures passed { Flushes (pen_of (writer_contents A.contents) answers.old)
        (pen_of (writer_contents A.contents) answers.new) }
    ensures none_held { has_failed answers.new ≡ false → writer_buffer (inner_of answers.new) ≡ [] }
    ensures written { WritesImage O.contents stores.now (has_failed answers.new) out.old out.new }
{
    if answers.pass_on().is_ok() {
        // A file that fails knows it.
        let _ = stores.image_into(out);
    }
}

//! `report`: a page on a form set.

ghost use Rattle.std.specs.Prelude.{◌≡◌, ◌≢◌, ◌+◌, ◌<◌, ◌^◌, [], false, true, IfErr, IfOk, length, option_map};
ghost use Rattle.std.specs.Io.Buffered.{writer_buffer, writer_contents};
ghost use Rattle.hii_bytes.specs.Faults.{Refuses};
ghost use Rattle.hii_bytes.specs.Watching.{Flushes, Puts, has_failed, inner_of, pen_of};
ghost use Rattle.session_steps.specs.Opening.{IsOpenFault};
ghost use Rattle.audit_json.specs.declared.telling.Telling.TheVariants.{Lines};
ghost use Rattle.audit_answers.specs.Endings.{TellsAndWrites};
ghost use Rattle.audit_answers.specs.Listing.{SaysOfList};
ghost use Rattle.audit_answers.specs.code.Endings.{RefusesBehind};
ghost use Rattle.audit_commands.specs.Auditing.{asked_of};
ghost use Rattle.audit_commands.specs.Reporting.{Reports, SaysReport, long_page_text};
ghost use Rattle.audit_commands.specs.code.Givens.{given_asked};

use crate::givens::given_of;
use crate::opened::Opened;
use audit_answers::{
    Answers, Ended, answers, commit, finish, given_list, refuse, refuse_list, told_with_file,
};
use audit_json::Telling;
use audit_options::ReportOptions;
use hii_bytes::{Cause, Fault, Watched};
use question_audit::Origin;
use report_audit::report_page;
use setup_files::{FormSetFiles, Given, Status, Terminals, is_same_file, out_file, refused, usage};
use std::alloc::Global;
use std::io::Write;
use std::rt::Files;

const LIST_AS_OUT: &str = "error: --out is the file of --list\n";

const STORES_AS_OUT: &str = "error: --out is the file of --stores\n";

/// Writes a page on a list over an image of its stores.
pub fn run<R: Files + Print + Eprint + AllocGlobal>(
    rt: &R,
    terminals: Terminals,
    options: ReportOptions<'_>,
) -> Result<Status, Status>
    ensures { IfErr result (λ status. status ≢ Status.Done) }
{
    let form_set = options.form_set;
    if is_same_file(rt, form_set.list.path, options.out) {
        return Err(usage(rt, &LIST_AS_OUT));
    }
    if is_same_file(rt, form_set.stores, options.out) {
        return Err(usage(rt, &STORES_AS_OUT));
    }
    let Ok(out) = out_file(rt, options.out) else {
        return Err(refused(rt, terminals, Cause::OutOfMemory));
    };
    let files = FormSetFiles::read(rt, terminals, form_set.list.path, form_set.stores)?;
    let mut answers = answers(rt, terminals)?;
    let mut out = Watched::new(out);
    let ended = report(rt.alloc(), options, &files, &mut answers, &mut out);
    Ok(told_with_file(rt, terminals, ended, answers, options.out, out))
}

// Writes the page on the list that the options name.
fn report<A: Write + Drop, O: Write>(
    alloc: Global,
    options: ReportOptions<'_>,
    files: &FormSetFiles<'_>,
    answers: &mut Answers<A>,
    out: &mut Watched<O>,
) -> Ended
    requires list { files.now.list.path.now ≡ options.form_set.list.path.now }
    requires stores { files.now.stores.path.now ≡ options.form_set.stores.now }
    ensures { TellsAndWrites (λ bytes. SaysOfList Lines options.entry.form_set.list.take files.now.list.bytes.items
        (λ list. SaysReport (asked_of options.entry.form_set files.now list) bytes))
        A.contents O.contents answers.old out.old result answers.new out.new }
{
    let form_set = options.form_set;
    match given_list(files.list.bytes.as_slice(), form_set.list.take) {
        Ok(list) => {
            let given = given_of(form_set, files, list);
            report_on(alloc, given, list.origin, answers, out)
        }
        Err(none) => refuse_list(Telling::Lines, none, answers),
    }
}

// Writes the page on what is given, where the list begins at a place of the file.
fn report_on<A: Write + Drop, O: Write>(
    alloc: Global,
    given: Given<'_>,
    origin: Origin,
    answers: &mut Answers<A>,
    out: &mut Watched<O>,
) -> Ended
    requires { origin.place + length given.list.now < 2 ^ 64 }
    ensures { TellsAndWrites (SaysReport (given_asked given.entry))
        A.contents O.contents answers.old out.old result answers.new out.new }
{
    match page_on(alloc, given, origin) {
        Ok(Some(page)) => {
            write_page(page.as_slice(), answers, out);
            commit(answers, out)
        }
        Ok(None) => refuse_page(answers),
        Err(fault) => refuse(Telling::Lines, fault, answers),
    }
}

// The page on what is given, unless it is longer than a page may be; or the least fault of what is given, by which a session over it is
// refused, or that an allocation failed.
fn page_on(alloc: Global, given: Given<'_>, origin: Origin) -> Result<Option<Vec<u8>>, Fault>
    requires { origin.place + length given.list.now < 2 ^ 64 }
    ensures told { IfOk result (λ held. Reports (given_asked given.entry) (option_map (λ bytes. bytes.items) held)) }
    ensures refused { IfErr result (Refuses (IsOpenFault given.entry.list.now given.entry.forms given.entry.stores.now)) }
{
    let opened = Opened::read(alloc, given, origin)?;
    report_page(alloc, opened.browser.page())
}

// Passes on what is written, and then writes a page into a file, unless the answers fail.
fn write_page<A: Write + Drop, O: Write>(
    page: &[u8],
    answers: &mut Answers<A>,
    out: &mut Watched<O>,
)
    ensures passed { Flushes (pen_of (writer_contents A.contents) answers.old)
        (pen_of (writer_contents A.contents) answers.new) }
    ensures none_held { has_failed answers.new ≡ false → writer_buffer (inner_of answers.new) ≡ [] }
    ensures untouched { has_failed answers.new ≡ true → out.new ≡ out.old }
    ensures written { has_failed answers.new ≡ false → Puts O.contents out.old out.new page.now }
{
    if answers.pass_on().is_ok() {
        out.put(page);
    }
}

// Ends a run whose page is longer than a page may be: that is told.
fn refuse_page<A: Write + Drop>(answers: &mut Answers<A>) -> Ended
    ensures { RefusesBehind long_page_text A.contents answers.old result answers.new }
{
    answers.put(b"page above 16777216 bytes\n");
    finish(Ended::Refused, answers)
}

//! `export`: what an image holds.

ghost use Rattle.std.specs.Prelude.{◌≡◌, ◌≢◌, ℕ, List, IfErr, IfOk, OnErr, OnOk, option_map};
ghost use Rattle.hii_bytes.specs.Faults.{Refuses};
ghost use Rattle.hii_bytes.specs.Watching.{Puts};
ghost use Rattle.ifr_nodes.specs.Nodes.{nodes_of};
ghost use Rattle.session_steps.specs.Opening.{IsBrowsable};
ghost use Rattle.audit_answers.specs.Endings.{Tells, TellsAndWrites};
ghost use Rattle.store_commands.specs.Exporting.{IsImaged, IsImagedFault, IsOtherFault, IsPairFault, SaysExport, SaysFields, SpellsOther, TellsFields};
ghost use Rattle.audit_json.specs.Telling.{asked};
ghost use Rattle.store_commands.specs.Saying.{no_store_told};
ghost use Rattle.audit_answers.specs.Listing.{SaysOfList};
ghost use Rattle.audit_answers.specs.code.Endings.{RefusesBehind};
ghost use Rattle.store_commands.specs.code.Exporting.{SaysStore};

use crate::saying::put_no_store;
use audit_answers::{
    Answers, Ended, answers, commit, finish, given_list, refuse, refuse_list, told, told_with_file,
};
use audit_json::Telling;
use audit_options::{ExportOptions, ExportPart};
use hii_bytes::{Cause, Fault, Watched};
use hii_varstore::{Layout, Stores};
use ifr_scopes::Forms;
use image_audit::{put_fields, put_store};
use setup_files::{
    FormSetFiles, Status, Terminals, WholeFile, file, is_same_file, out_file, refused, usage,
};
use std::alloc::Global;
use std::io::Write;
use std::rt::Files;
use store_audit::Declared;

const LIST_AS_OUT: &str = "error: --out is the file of --list\n";

const STORES_AS_OUT: &str = "error: --out is the file of --stores\n";

// What a list declares, and the stores that an image of it spells.
#[derive(Drop)]
struct Imaged<'a> {
    declared: Declared<'a>,
    stores: Stores,
}

/// Tells what an image of the stores of a list holds: the bytes of a store, or each field.
pub fn run<R: Files + Print + Eprint + AllocGlobal>(
    rt: &R,
    terminals: Terminals,
    options: ExportOptions<'_>,
) -> Result<Status, Status>
    ensures { IfErr result (λ status. status ≢ Status.Done) }
{
    match options.part {
        ExportPart::Store { id, out } => run_store(rt, terminals, options, id, out),
        ExportPart::Lines { with } => run_lines(rt, terminals, options, with),
    }
}

// Writes the bytes of a store into a file.
fn run_store<R: Files + Print + Eprint + AllocGlobal>(
    rt: &R,
    terminals: Terminals,
    options: ExportOptions<'_>,
    id: u16,
    path: &str,
) -> Result<Status, Status>
    ensures { IfErr result (λ status. status ≢ Status.Done) }
{
    if is_same_file(rt, options.list.path, path) {
        return Err(usage(rt, &LIST_AS_OUT));
    }
    if is_same_file(rt, options.stores, path) {
        return Err(usage(rt, &STORES_AS_OUT));
    }
    let Ok(out) = out_file(rt, path) else {
        return Err(refused(rt, terminals, Cause::OutOfMemory));
    };
    let files = FormSetFiles::read(rt, terminals, options.list.path, options.stores)?;
    let mut answers = answers(rt, terminals)?;
    let mut out = Watched::new(out);
    let ended = export(rt.alloc(), options, id, &files, &mut answers, &mut out);
    Ok(told_with_file(rt, terminals, ended, answers, path, out))
}

// Tells each field.
fn run_lines<R: Files + Print + Eprint + AllocGlobal>(
    rt: &R,
    terminals: Terminals,
    options: ExportOptions<'_>,
    with: Option<&str>,
) -> Result<Status, Status>
    ensures { IfErr result (λ status. status ≢ Status.Done) }
{
    let files = FormSetFiles::read(rt, terminals, options.list.path, options.stores)?;
    let other = match with {
        Some(path) => Some(file(rt, terminals, path, "read with")?),
        None => None,
    };
    let mut answers = answers(rt, terminals)?;
    let ended = tell(rt.alloc(), options, &files, other.as_ref(), &mut answers);
    Ok(told(rt, terminals, ended, answers))
}

// Writes the bytes of a store of the list that the options name, behind its line.
fn export<A: Write + Drop, O: Write>(
    alloc: Global,
    options: ExportOptions<'_>,
    id: u16,
    files: &FormSetFiles<'_>,
    answers: &mut Answers<A>,
    out: &mut Watched<O>,
) -> Ended
    requires list { files.now.list.path.now ≡ options.list.path.now }
    requires stores { files.now.stores.path.now ≡ options.stores.now }
    ensures { TellsAndWrites (λ bytes. SaysOfList (asked options.entry.json) options.entry.list.take files.now.list.bytes.items
        (λ list. SaysExport (asked options.entry.json) list.bytes options.entry.list.forms files.now.stores.bytes.items id bytes))
        A.contents O.contents answers.old out.old result answers.new out.new }
{
    let telling = Telling::of(options.json);
    match given_list(files.list.bytes.as_slice(), options.list.take) {
        Ok(list) => {
            let image = files.stores.bytes.as_slice();
            export_of(
                telling,
                alloc,
                list.bytes,
                options.list.forms,
                image,
                id,
                answers,
                out,
            )
        }
        Err(none) => refuse_list(telling, none, answers),
    }
}

// Writes the bytes of a store of a list.
fn export_of<A: Write + Drop, O: Write>(
    telling: Telling,
    alloc: Global,
    list: &[u8],
    forms: u16,
    image: &[u8],
    id: u16,
    answers: &mut Answers<A>,
    out: &mut Watched<O>,
) -> Ended
    ensures { TellsAndWrites (SaysExport telling list.now forms image.now id)
        A.contents O.contents answers.old out.old result answers.new out.new }
{
    match open(alloc, list, forms, image) {
        Ok(imaged) => {
            let forms = imaged.declared.forms();
            write(telling, forms, &imaged.stores, id, answers, out)
        },
        Err(fault) => refuse(telling, fault, answers),
    }
}

// Writes the bytes of one of some stores, behind its line.
fn write<A: Write + Drop, O: Write>(
    telling: Telling,
    forms: &Forms<'_>,
    stores: &Stores,
    id: u16,
    answers: &mut Answers<A>,
    out: &mut Watched<O>,
) -> Ended
    ensures { TellsAndWrites (SaysStore telling (nodes_of forms.now) stores.now id)
        A.contents O.contents answers.old out.old result answers.new out.new }
{
    match stores.bytes(id) {
        Some(bytes) => {
            put_store(telling, forms, id, bytes, answers, out);
            commit(answers, out)
        }
        None => refuse_store(telling, id, answers),
    }
}

// What a list declares, and the stores that an image of it spells, or the least fault by which one of them is refused.
fn open<'a>(alloc: Global, list: &'a [u8], forms: u16, image: &[u8]) -> Result<Imaged<'a>, Fault>
    ensures imaged { IfOk result (λ imaged. IsImaged list.entry.now forms image.now imaged.declared imaged.stores) }
    ensures browsable { IfOk result (λ imaged. IsBrowsable imaged.declared) }
    ensures refused { IfErr result (Refuses (IsImagedFault list.entry.now forms image.now)) }
{
    let declared = Declared::read(alloc, list, usize::from(forms))?;
    let stores = Stores::read(alloc, declared.layout(), image)?;
    Ok(Imaged { declared, stores })
}

// Ends a run that is asked for a store which is not there, or holds no bytes: that is told.
fn refuse_store<A: Write + Drop>(telling: Telling, id: u16, answers: &mut Answers<A>) -> Ended
    ensures { RefusesBehind (no_store_told telling id) A.contents answers.old result answers.new }
{
    put_no_store(telling, id, answers);
    finish(Ended::Refused, answers)
}

// Tells the fields of the list that the options name.
fn tell<A: Write + Drop>(
    alloc: Global,
    options: ExportOptions<'_>,
    files: &FormSetFiles<'_>,
    other: Option<&WholeFile<'_>>,
    answers: &mut Answers<A>,
) -> Ended
    requires list { files.now.list.path.now ≡ options.list.path.now }
    requires stores { files.now.stores.path.now ≡ options.stores.now }
    ensures { Tells (SaysOfList (asked options.entry.json) options.entry.list.take files.now.list.bytes.items
        (λ list. SaysFields (asked options.entry.json) list.bytes options.entry.list.forms files.now.stores.bytes.items
        (option_map (λ file. file.now.bytes.items) other.entry)))
        A.contents answers.old result answers.new }
{
    let telling = Telling::of(options.json);
    match given_list(files.list.bytes.as_slice(), options.list.take) {
        Ok(list) => {
            let image = files.stores.bytes.as_slice();
            tell_of(
                telling,
                alloc,
                list.bytes,
                options.list.forms,
                image,
                bytes_of(other),
                answers,
            )
        }
        Err(none) => refuse_list(telling, none, answers),
    }
}

// The bytes of a file, if there is one.
fn bytes_of<'f>(file: Option<&'f WholeFile<'_>>) -> Option<&'f [u8]>
    ensures { option_map (λ bytes. bytes.now) result
        ≡ option_map (λ file. file.now.bytes.items) file.entry }
{
    match file {
        Some(file) => Some(file.bytes.as_slice()),
        None => None,
    }
}

// Tells the fields of a list.
fn tell_of<A: Write + Drop>(
    telling: Telling,
    alloc: Global,
    list: &[u8],
    forms: u16,
    image: &[u8],
    other: Option<&[u8]>,
    answers: &mut Answers<A>,
) -> Ended
    ensures { Tells (SaysFields telling list.now forms image.now (option_map (λ bytes. bytes.now) other.entry))
        A.contents answers.old result answers.new }
{
    match put_all(telling, alloc, list, forms, image, other, answers) {
        Ok(()) => finish(Ended::Done, answers),
        Err(fault) => refuse(telling, fault, answers),
    }
}

// Tells the fields of a list, or gives the least fault by which it or an image is refused, or that an allocation failed.
// Then nothing is written.
fn put_all<W: Write>(
    telling: Telling,
    alloc: Global,
    list: &[u8],
    forms: u16,
    image: &[u8],
    other: Option<&[u8]>,
    out: &mut Watched<W>,
) -> Result<(), Fault>
    ensures told { OnOk result ((text : List ℕ)
        × TellsFields telling list.now forms image.now (option_map (λ bytes. bytes.now) other.entry) text
        × Puts W.contents out.old out.new text) }
    ensures refused { IfErr result (Refuses (IsPairFault list.now forms image.now
        (option_map (λ bytes. bytes.now) other.entry))) }
    ensures nothing { OnErr result (out.new ≡ out.old) }
{
    let imaged = open(alloc, list, forms, image)?;
    let others = read_other(alloc, imaged.declared.layout(), other)?;
    put_fields(
        telling,
        alloc,
        imaged.declared.forms(),
        imaged.declared.layout(),
        &imaged.stores,
        others.as_ref(),
        out,
    )
}

// The stores that another image spells, if there is one, or its fault.
fn read_other(
    alloc: Global,
    layout: &Layout<'_>,
    image: Option<&[u8]>,
) -> Result<Option<Stores>, Fault>
    ensures spelled { IfOk result (SpellsOther layout.now (option_map (λ bytes. bytes.now) image.entry)) }
    ensures refused { IfErr result (Refuses (IsOtherFault layout.now (option_map (λ bytes. bytes.now) image.entry))) }
{
    match image {
        Some(image) => Ok(Some(Stores::read(alloc, layout, image)?)),
        None => Ok(None),
    }
}

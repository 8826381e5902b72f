//! `image`: an image of the stores of a form set, made of given bytes.

ghost use Rattle.std.specs.Prelude.{◌≡◌, ◌≢◌, ℕ, List, None, Ok, map, option_copied, option_map, IfErr, OnErr, IfOk};
ghost use Rattle.hii_varstore.specs.StoreNodes.{layout_of};
ghost use Rattle.exported_config.specs.code.Views.{exported_view};
ghost use Rattle.store_commands.specs.Configured as spec;
ghost use Rattle.store_commands.specs.Configured.{IsText};
ghost use Rattle.ifr_nodes.specs.Nodes.{nodes_of};
ghost use Rattle.store_audit.specs.Fillings.{buffer_stores};
ghost use Rattle.store_audit.specs.code.Defaulted.{defaults_view};
ghost use Rattle.store_audit.specs.code.Fillings.{filling_node};
ghost use Rattle.audit_answers.specs.Endings.{TellsAndWrites};
ghost use Rattle.audit_json.specs.Telling.{asked};
ghost use Rattle.store_commands.specs.Imaging.{SaysImage, unknown_file};
ghost use Rattle.audit_answers.specs.Listing.{SaysOfList};
ghost use Rattle.store_commands.specs.Defaulting.{IsMadeOf, defaults_asked};
ghost use Rattle.store_commands.specs.code.Defaulting.{AreTexts};
ghost use Rattle.store_commands.specs.code.Imaging.{SaysFillings};

use crate::config::{config_in, put_bad_response, text_of};
use crate::saying::put_no_store;
use crate::sources::{Unsourced, fillings};
use crate::store_files::{StoreFiles, SystemFiles};
use crate::texts::{defaults_of, texts_for};
use audit_answers::{
    Answers, Ended, answers, commit, finish, given_list, refuse, refuse_list, told_with_file,
};
use audit_json::Telling;
use audit_options::{ImageOptions, StoreFile};
use exported_config::{ExportedConfig, Unread};
use hii_bytes::{Cause, Fault, Watched};
use hii_languages::Languages;
use hii_varstore::Layout;
use setup_files::{
    Status, Terminals, WholeFile, fault, file, is_same_file, out_file, refused, usage,
};
use std::alloc::Global;
use std::fs;
use std::io::Write;
use std::rt::Files;
use store_audit::{Declared, Defaults, Filling, put_image};

const LIST_AS_OUT: &str = "error: --out is the file of --list\n";

const CONFIG_AS_OUT: &str = "error: --out is the file of --config\n";

const STORE_AS_OUT: &str = "error: --out is a file of --store\n";

/// Makes the image of the stores of a list, and tells where the bytes of each come from.
pub fn run<R: Files + Print + Eprint + AllocGlobal>(
    rt: &R,
    terminals: Terminals,
    options: &ImageOptions<'_>,
) -> Result<Status, Status>
    ensures { IfErr result (λ status. status ≢ Status.Done) }
{
    if is_same_file(rt, options.list.path, options.out) {
        return Err(usage(rt, &LIST_AS_OUT));
    }
    if let Some(config) = options.sources.config {
        if is_same_file(rt, config, options.out) {
            return Err(usage(rt, &CONFIG_AS_OUT));
        }
    }
    if is_store_file(rt, options) {
        return Err(usage(rt, &STORE_AS_OUT));
    }
    let Ok(out) = out_file(rt, options.out) else {
        return Err(refused(rt, terminals, Cause::OutOfMemory));
    };
    let list = file(rt, terminals, options.list.path, "read list")?;
    if let Some(folder) = options.sources.efivars {
        check_folder(rt, terminals, folder)?;
    }
    let files = SystemFiles::new(rt, terminals, Some(options.out));
    let mut answers = answers(rt, terminals)?;
    let mut out = Watched::new(out);
    let ended = make(rt.alloc(), options, &list, &files, &mut answers, &mut out)?;
    Ok(told_with_file(rt, terminals, ended, answers, options.out, out))
}

/// Refuses what is no folder of variables' files.
pub fn check_folder<R: Files + Eprint>(
    rt: &R,
    terminals: Terminals,
    folder: &str,
) -> Result<(), Status>
    ensures { IfErr result (λ status. status ≢ Status.Done) }
{
    let reason = match fs::metadata(rt, folder) {
        Ok(found) if found.is_dir() => return Ok(()),
        Ok(_) => None,
        Err(reason) => Some(reason),
    };
    Err(fault(rt, terminals, "read efivars", folder, reason))
}

// Whether the file of `--out` is one of those that are given to stores.
fn is_store_file<R: Files>(rt: &R, options: &ImageOptions<'_>) -> bool {
    for file in options.sources.files.as_slice() {
        if is_same_file(rt, file.path, options.out) {
            return true;
        }
    }
    false
}

// Makes the image of the stores of the list that the options name. What is refused leaves no image. Where a file is not read this is
// the status with which the program ends, and nothing is written.
fn make<F: StoreFiles, A: Write + Drop, O: Write>(
    alloc: Global,
    options: &ImageOptions<'_>,
    file: &WholeFile<'_>,
    files: &F,
    answers: &mut Answers<A>,
    out: &mut Watched<O>,
) -> Result<Ended, Status>
    requires { file.now.path.now ≡ options.now.list.path.now }
    ensures told { IfOk result (λ ended. TellsAndWrites
        (λ bytes. SaysOfList (asked options.now.json) options.now.list.take file.now.bytes.items
        (λ list. SaysImage (F.known files.now) options.now list.bytes bytes))
        A.contents O.contents answers.old out.old ended answers.new out.new) }
    ensures unread { OnErr result ((answers.new ≡ answers.old) × (out.new ≡ out.old)) }
    ensures err { IfErr result (λ status. status ≢ Status.Done) }
{
    match given_list(file.bytes.as_slice(), options.list.take) {
        Ok(list) => make_of(alloc, options, list.bytes, files, answers, out),
        Err(none) => Ok(refuse_list(Telling::of(options.json), none, answers)),
    }
}

// Makes the image of the stores that a list declares.
fn make_of<F: StoreFiles, A: Write + Drop, O: Write>(
    alloc: Global,
    options: &ImageOptions<'_>,
    list: &[u8],
    files: &F,
    answers: &mut Answers<A>,
    out: &mut Watched<O>,
) -> Result<Ended, Status>
    ensures told { IfOk result (λ ended. TellsAndWrites
        (SaysImage (F.known files.now) options.now list.now)
        A.contents O.contents answers.old out.old ended answers.new out.new) }
    ensures unread { OnErr result ((answers.new ≡ answers.old) × (out.new ≡ out.old)) }
    ensures err { IfErr result (λ status. status ≢ Status.Done) }
{
    match texts_for(alloc, list, options) {
        Ok(texts) => make_over(alloc, options, list, texts.as_ref(), files, answers, out),
        Err(fault) => Ok(refuse(Telling::of(options.json), fault, answers)),
    }
}

// Makes the image of the stores that a list declares, where defaults are taken from its texts, if they are asked for.
fn make_over<'a, F: StoreFiles, A: Write + Drop, O: Write>(
    alloc: Global,
    options: &ImageOptions<'_>,
    list: &'a [u8],
    texts: Option<&Languages<'a>>,
    files: &F,
    answers: &mut Answers<A>,
    out: &mut Watched<O>,
) -> Result<Ended, Status>
    requires { AreTexts options.now.defaults list.now (option_map (λ texts. texts.now) texts) }
    ensures told { IfOk result (λ ended. TellsAndWrites
        (SaysImage (F.known files.now) options.now list.entry.now)
        A.contents O.contents answers.old out.old ended answers.new out.new) }
    ensures unread { OnErr result ((answers.new ≡ answers.old) × (out.new ≡ out.old)) }
    ensures err { IfErr result (λ status. status ≢ Status.Done) }
{
    match Declared::read(alloc, list, usize::from(options.list.forms)) {
        Ok(declared) => {
            let defaults = defaults_of(options, texts);
            fill(alloc, options, &declared, defaults, files, answers, out)
        }
        Err(fault) => Ok(refuse(Telling::of(options.json), fault, answers)),
    }
}

// Makes the image of the stores that are declared.
fn fill<'a, F: StoreFiles, A: Write + Drop, O: Write>(
    alloc: Global,
    options: &ImageOptions<'_>,
    declared: &Declared<'a>,
    defaults: Option<Defaults<'a, '_>>,
    files: &F,
    answers: &mut Answers<A>,
    out: &mut Watched<O>,
) -> Result<Ended, Status>
    ensures told { IfOk result (λ ended. (list : List ℕ)
        → IsMadeOf options.now list declared.now
        → option_map defaults_view defaults.entry ≡ defaults_asked options.now list
        → TellsAndWrites (SaysImage (F.known files.now) options.now list)
        A.contents O.contents answers.old out.old ended answers.new out.new) }
    ensures unread { OnErr result ((answers.new ≡ answers.old) × (out.new ≡ out.old)) }
    ensures err { IfErr result (λ status. status ≢ Status.Done) }
{
    let telling = Telling::of(options.json);
    if let Some(file) = unknown_file(declared.layout(), options.sources.files.as_slice()) {
        put_no_store(telling, file.id, answers);
        return Ok(finish(Ended::Refused, answers));
    }
    let text = match text_of(alloc, files, &options.sources) {
        Ok(text) => text,
        Err(Unsourced::NoMemory) => return Ok(refuse(telling, Fault::out_of_memory(), answers)),
        Err(Unsourced::Unread(status)) => return Err(status),
    };
    match config_in(alloc, declared, text.as_slice()) {
        Ok(config) => fill_from(
            alloc, options, declared, defaults, files, &config, answers, out,
        ),
        Err(Unread::NoMemory) => Ok(refuse(telling, Fault::out_of_memory(), answers)),
        Err(Unread::Bad(bad)) => {
            put_bad_response(telling, bad, answers);
            Ok(finish(Ended::Refused, answers))
        }
    }
}

// Makes the image of the stores that are declared, none of whose files is given to another store, over a configuration text.
fn fill_from<'a, F: StoreFiles, A: Write + Drop, O: Write>(
    alloc: Global,
    options: &ImageOptions<'_>,
    declared: &Declared<'a>,
    defaults: Option<Defaults<'a, '_>>,
    files: &F,
    config: &ExportedConfig<'_>,
    answers: &mut Answers<A>,
    out: &mut Watched<O>,
) -> Result<Ended, Status>
    ensures told { IfOk result (λ ended. (list text : List ℕ)
        → IsMadeOf options.now list declared.now
        → option_map defaults_view defaults.entry ≡ defaults_asked options.now list
        → unknown_file (layout_of (nodes_of declared.now)) options.now.sources.files.items ≡ None
        → IsText (F.known files.now) (option_map (λ path. path.now) options.now.sources.config) text
        → spec.config_in declared.now text ≡ Ok (exported_view config.now)
        → TellsAndWrites (SaysImage (F.known files.now) options.now list)
        A.contents O.contents answers.old out.old ended answers.new out.new) }
    ensures unread { OnErr result ((answers.new ≡ answers.old) × (out.new ≡ out.old)) }
    ensures err { IfErr result (λ status. status ≢ Status.Done) }
{
    let telling = Telling::of(options.json);
    let fillings = match fillings(alloc, files, declared, &options.sources, config) {
        Ok(fillings) => fillings,
        Err(Unsourced::NoMemory) => return Ok(refuse(telling, Fault::out_of_memory(), answers)),
        Err(Unsourced::Unread(status)) => return Err(status),
    };
    Ok(write(
        telling,
        alloc,
        declared,
        fillings.as_slice(),
        defaults,
        answers,
        out,
    ))
}

// Writes the image of stores that are given what they hold, each of which is told before it.
fn write<'a, A: Write + Drop, O: Write>(
    telling: Telling,
    alloc: Global,
    declared: &Declared<'a>,
    fillings: &[Filling<'_>],
    defaults: Option<Defaults<'a, '_>>,
    answers: &mut Answers<A>,
    out: &mut Watched<O>,
) -> Ended
    requires { map filling_node fillings.now ≡ buffer_stores (nodes_of declared.now) }
    ensures { TellsAndWrites (SaysFillings telling declared.now (option_map defaults_view defaults.entry) fillings.now)
        A.contents O.contents answers.old out.old result answers.new out.new }
{
    match put_image(telling, alloc, declared, fillings, defaults, answers, out) {
        Ok(true) => commit(answers, out),
        Ok(false) => finish(Ended::Refused, answers),
        Err(fault) => refuse(telling, fault, answers),
    }
}

// The first file that is given to a store which is not there, or which holds no bytes.
fn unknown_file<'f, 'a>(
    layout: &Layout<'_>,
    files: &'f [StoreFile<'a>],
) -> Option<&'f StoreFile<'a>>
    ensures { option_copied result ≡ unknown_file layout.now files.entry.now }
{
    files.iter().find(|file| layout.size(file.id).is_none())
}
